// Reads each cell of rows with 0, 1, 2, 3, 400 and all columns, and prints for each row how many cells were present and
// absent, how many answers were wrong, and the most column numbers that a read looked at.

#![tactic(auto)]

use answers::Refusal;
use grid::EntryAt;
use limits::MAX_COLS;
use matrix::layout::ROWS_AT;
use std::io;

// A row's number of entries, the first column, and how many columns further the next one is. The values are 0, 1, 2 and
// so on.
#[derive(Clone, Copy)]
struct RowPlan {
    entries: u32,
    first: u32,
    step: u32,
}

// What was seen of a row: its entries so far and the column of the next, absent cells, wrong answers, the most looks and
// the first column that took them.
#[derive(Clone, Copy)]
struct Tally {
    present: u32,
    next: u32,
    absent: u32,
    wrong: u32,
    most: u32,
    most_at: u32,
}

fn main(rt: HostRuntime) -> io::Result<()> {
    let mut space = [0u32; 2900];
    let words: &mut [u32] = &mut space;
    build(words);
    let answer = matrix::check(words);
    test_support::print_pair(
        &rt,
        b"check: ",
        test_support::code(answer),
        test_support::value(answer),
    )?;
    for i in 0..6u32 {
        read_row(&rt, words, i, plan(i))?;
    }
    Ok(())
}

fn plan(i: u32) -> RowPlan {
    match i {
        0 => row_plan(0, 0, 1),
        1 => row_plan(1, MAX_COLS / 2, 1),
        2 => row_plan(2, 1, MAX_COLS / 2),
        3 => row_plan(3, 0, MAX_COLS / 3),
        4 => row_plan(400, 7, MAX_COLS / 400),
        _ => row_plan(MAX_COLS, 0, 1),
    }
}

fn row_plan(entries: u32, first: u32, step: u32) -> RowPlan {
    RowPlan {
        entries: entries,
        first: first,
        step: step,
    }
}

// The words of the matrix: six rows.
fn build(words: &mut [u32]) {
    let n = 406 + MAX_COLS;
    test_support::put(words, 0, 1);
    test_support::put(words, 2, 2);
    test_support::put(words, 3, 6);
    test_support::put(words, 4, MAX_COLS);
    test_support::put(words, 5, 7);
    test_support::put(words, 13, n);
    test_support::put(words, 14 + n as usize, n);
    let mut start: u32 = 0;
    for i in 0..6u32 {
        start = build_row(words, i, start, plan(i));
    }
}

// The start of row i, its columns and its values; then the start of the next row.
fn build_row(words: &mut [u32], i: u32, start: u32, row: RowPlan) -> u32 {
    let entries = row.entries as usize;
    let columns_at = test_support::past(14, start as usize);
    let end = start.wrapping_add(row.entries);
    test_support::put(words, test_support::past(6, i as usize), start);
    test_support::put(words, test_support::past(7, i as usize), end);
    put_steps(words, columns_at, entries, row.first, row.step);
    put_steps(
        words,
        test_support::past(columns_at, 407 + MAX_COLS as usize),
        entries,
        0,
        1,
    );
    end
}

// n words from `at` on: first, first + step, first + 2 * step and so on.
fn put_steps(words: &mut [u32], at: usize, n: usize, first: u32, step: u32) {
    let mut word = first;
    for k in 0..n {
        test_support::put(words, test_support::past(at, k), word);
        word = word.wrapping_add(step);
    }
}

fn read_row(rt: &impl Print, words: &[u32], i: u32, row: RowPlan) -> io::Result<()> {
    let mut seen = Tally {
        present: 0,
        next: row.first,
        absent: 0,
        wrong: 0,
        most: 0,
        most_at: 0,
    };
    for j in 0..MAX_COLS {
        seen = looked(read(words, i, j, row, seen), looks_at(words, i, j), j);
    }
    print_row(rt, seen)
}

// One cell read, and held against the plan.
fn read(words: &[u32], i: u32, j: u32, row: RowPlan, seen: Tally) -> Tally {
    let answer = cells::read_cell(words, i, j);
    let position = row_start(words, i).wrapping_add(seen.present);
    if seen.present < row.entries {
        if seen.next == j {
            return Tally {
                present: seen.present.wrapping_add(1),
                next: seen.next.wrapping_add(row.step),
                absent: seen.absent,
                wrong: seen.wrong.wrapping_add(unexpected(
                    answer,
                    EntryAt::Present {
                        value: seen.present,
                        position,
                    },
                )),
                most: seen.most,
                most_at: seen.most_at,
            };
        }
    }
    Tally {
        present: seen.present,
        next: seen.next,
        absent: seen.absent.wrapping_add(1),
        wrong: seen
            .wrong
            .wrapping_add(unexpected(answer, EntryAt::Absent { position })),
        most: seen.most,
        most_at: seen.most_at,
    }
}

// How many entries the rows before row i have.
fn row_start(words: &[u32], i: u32) -> u32 {
    test_support::word(words, test_support::past(6, i as usize))
}

// 1 where the answer is another one.
fn unexpected(answer: Result<EntryAt, Refusal>, expected: EntryAt) -> u32 {
    u32::from(answer != Ok(expected))
}

fn looked(seen: Tally, looks: u32, j: u32) -> Tally {
    if looks <= seen.most {
        return seen;
    }
    Tally {
        present: seen.present,
        next: seen.next,
        absent: seen.absent,
        wrong: seen.wrong,
        most: looks,
        most_at: j,
    }
}

// How many column numbers are looked at for a cell; 99 where there is no such row.
fn looks_at(words: &[u32], i: u32, j: u32) -> u32 {
    if !matrix::is_valid(words) {
        return 99;
    }
    if words[ROWS_AT] <= i {
        return 99;
    }
    let read = cells::entry_at(words, i as usize, j);
    read.looks as u32
}

fn print_row(rt: &impl Print, seen: Tally) -> io::Result<()> {
    test_support::print_number(rt, seen.present)?;
    rt.write_all(b" present, ")?;
    test_support::print_number(rt, seen.absent)?;
    rt.write_all(b" absent, ")?;
    test_support::print_number(rt, seen.wrong)?;
    rt.write_all(b" wrong; at most ")?;
    test_support::print_number(rt, seen.most)?;
    test_support::print_word(rt, b" looks, first for column", seen.most_at)
}
