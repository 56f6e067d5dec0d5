// Runs the calls of the format on document 01's strip, on each kind of damage and on the limits, and prints what they
// answer: a code and a number, a cell, or the words shown.

#![tactic(auto)]

use row_view::Section;
use std::io;

fn main(rt: HostRuntime) -> io::Result<()> {
    strip(&rt)?;
    two_rows(&rt)?;
    largest(&rt)?;
    empty(&rt)?;
    row_views(&rt)
}

// Document 01's strip, whole, with two spare words; then damage, a word at a time, and a careless sum's wrapping.
fn strip(rt: &impl Print) -> io::Result<()> {
    let mut words: [u32; 18] = [1, 0, 2, 1, 4, 2, 0, 3, 3, 0, 1, 3, 3, 10, 20, 40, 7, 8];
    test_support::heading(rt, b"strip")?;
    prefixes(rt, &words, &[18, 16, 15, 0])?;
    reads(rt, &words, &[0, 0, 0, 1, 0, 2, 0, 3, 0, 4, 1, 0])?;
    reads(rt, &words[..15], &[0, 0, 9, 9])?;
    damage(
        rt,
        &mut words,
        &[
            // the counts of the sections
            0, 0, 0, 2, 2, 1, 2, 3, 5, 1, 5, 3, 8, 2, 8, 4, 12, 2, 12, 4,
            // rows and columns
            3, 0, 3, 2, 3, 1001, 4, 0, 4, 3, 4, 1000, 4, 1001,
            // the last start, a column twice, columns that fall, a column past the end
            7, 2, 7, 4, 10, 0, 9, 2, 11, 4,
            // the revision, a value and a spare word are free
            1, 5, 1, 4294967295, 14, 4294967295, 16, 4294967295,
        ],
    )?;
    words[3] = 4294967295;
    damage(rt, &mut words, &[5, 0])
}

// A 2 by 3 matrix: 1 at (0, 2), a stored zero at (1, 0), -5 at (1, 2).
fn two_rows(rt: &impl Print) -> io::Result<()> {
    let mut words: [u32; 17] = [1, 0, 2, 2, 3, 3, 0, 1, 3, 3, 2, 0, 2, 3, 1, 0, 4294967291];
    test_support::heading(rt, b"two rows")?;
    test_support::print_word(rt, b"-5 is stored as", twos_complement::from_signed(-5))?;
    prefixes(rt, &words, &[17, 16])?;
    reads(rt, &words, &[0, 0, 0, 1, 0, 2, 1, 0, 1, 1, 1, 2])?;
    // starts that begin above 0, fall, end below and above N, and leave rows whose columns do not rise
    damage(rt, &mut words, &[6, 1, 7, 4, 8, 2, 8, 4, 7, 0, 7, 3])?;
    // counts and starts near the ends of the range
    damage(
        rt,
        &mut words,
        &[
            9, 2049, 9, 2147483648, 9, 4294967295, 13, 4294967295, 7, 4294967295,
        ],
    )?;
    words[9] = 2147483648;
    damage(rt, &mut words, &[8, 2147483648])
}

// 1,000 rows and columns with 2,048 entries, and one more of each.
fn largest(rt: &impl Print) -> io::Result<()> {
    let mut space = [0u32; 5200];
    let words: &mut [u32] = &mut space;
    test_support::heading(rt, b"1000 by 1000 with 2048 entries")?;
    test_support::build(words, 1000, 1000, 2048, 4);
    prefixes(rt, words, &[5200, 5105, 5104])?;
    reads(rt, words, &[999, 3, 999, 4, 1000, 0, 0, 1000])?;
    test_support::heading(rt, b"1001 by 1000")?;
    test_support::build(words, 1001, 1000, 2048, 4);
    prefixes(rt, words, &[5200])?;
    test_support::heading(rt, b"1000 by 1001")?;
    test_support::build(words, 1000, 1001, 2048, 4);
    prefixes(rt, words, &[5200])?;
    test_support::heading(rt, b"2049 entries")?;
    test_support::build(words, 1000, 1000, 2049, 5);
    prefixes(rt, words, &[5200])
}

// Empty matrices over words that are all 9: length, rows, columns.
fn empty(rt: &impl Print) -> io::Result<()> {
    let mut space = [9u32; 1010];
    let buffer: &mut [u32] = &mut space;
    test_support::heading(rt, b"empty")?;
    creates(rt, buffer, &[1010, 1000, 1000])?;
    prefixes(rt, buffer, &[1010, 1009, 1008])?;
    reads(rt, buffer, &[999, 999, 1000, 999])?;
    creates(
        rt,
        buffer,
        &[1010, 0, 1, 1010, 1001, 1, 1010, 1, 0, 1010, 1, 1001],
    )?;
    prefixes(rt, buffer, &[1010])?;
    creates(
        rt,
        buffer,
        &[
            1009, 1000, 1, 1008, 1000, 1, 1008, 1001, 1, 10, 1, 1, 9, 1, 1, 0, 1, 1,
        ],
    )?;
    show_ends(rt, &space)
}

fn show_ends(rt: &impl Print, words: &[u32; 1010]) -> io::Result<()> {
    test_support::show(rt, b"the first words", &words[..14])?;
    test_support::show(rt, b"the last words", &words[1006..])
}

fn row_views(rt: &impl Print) -> io::Result<()> {
    let first: [u32; 13] = [1, 0, 2, 2, 3, 3, 0, 0, 1, 1, 1, 1, 70];
    let second: [u32; 17] = [1, 0, 2, 2, 3, 3, 0, 1, 3, 3, 2, 0, 2, 3, 1, 0, 4294967291];
    let wide: [u32; 11] = [1, 0, 2, 2, 4, 3, 0, 0, 0, 0, 0];
    test_support::heading(rt, b"row views: first, then second")?;
    views(rt, &first, &second)?;
    test_support::heading(rt, b"second, then first")?;
    views(rt, &second, &first)?;
    test_support::heading(rt, b"first twice")?;
    views(rt, &first, &first)?;
    test_support::heading(rt, b"other shapes")?;
    views(rt, &second, &wide)?;
    test_support::heading(rt, b"the first damaged")?;
    views(rt, &first[..12], &second)?;
    test_support::heading(rt, b"the second damaged")?;
    views(rt, &first, &second[..16])
}

// Checks the first words of each of the lengths.
fn prefixes(rt: &impl Print, words: &[u32], lengths: &[u32]) -> io::Result<()> {
    for n in lengths {
        check_first(rt, words, *n)?;
    }
    Ok(())
}

fn check_first(rt: &impl Print, words: &[u32], n: u32) -> io::Result<()> {
    let end = n as usize;
    if end <= words.len() {
        let answer = matrix::check(&words[..end]);
        test_support::print_number(rt, n)?;
        test_support::print_pair(
            rt,
            b" words: ",
            test_support::code(answer),
            test_support::value(answer),
        )?;
    }
    Ok(())
}

// For each pair of a place and a word: the answer of `check` with that word there. The words are put back.
fn damage(rt: &impl Print, words: &mut [u32], cases: &[u32]) -> io::Result<()> {
    for pair in cases.chunks(2) {
        check_with(
            rt,
            words,
            test_support::word(pair, 0),
            test_support::word(pair, 1),
        )?;
    }
    Ok(())
}

fn check_with(rt: &impl Print, words: &mut [u32], place: u32, word: u32) -> io::Result<()> {
    let at = place as usize;
    if at < words.len() {
        let old = words[at];
        words[at] = word;
        let answer = matrix::check(words);
        words[at] = old;
        print_change(
            rt,
            place,
            word,
            test_support::code(answer),
            test_support::value(answer),
        )?;
    }
    Ok(())
}

// Reads the cell at each pair of a row and a column.
fn reads(rt: &impl Print, words: &[u32], cases: &[u32]) -> io::Result<()> {
    for pair in cases.chunks(2) {
        read(
            rt,
            words,
            test_support::word(pair, 0),
            test_support::word(pair, 1),
        )?;
    }
    Ok(())
}

fn read(rt: &impl Print, words: &[u32], i: u32, j: u32) -> io::Result<()> {
    let answer = cells::read_cell(words, i, j);
    print_cell(
        rt,
        i,
        j,
        test_support::code(answer),
        test_support::cell_value(answer),
    )?;
    test_support::print_word(rt, b" at position", test_support::cell_position(answer))
}

// Makes an empty matrix for each three of a length, rows and columns.
fn creates(rt: &impl Print, buffer: &mut [u32], cases: &[u32]) -> io::Result<()> {
    for three in cases.chunks(3) {
        create_first(
            rt,
            buffer,
            test_support::word(three, 0),
            test_support::word(three, 1),
            test_support::word(three, 2),
        )?;
    }
    Ok(())
}

fn create_first(rt: &impl Print, buffer: &mut [u32], n: u32, r: u32, c: u32) -> io::Result<()> {
    let end = n as usize;
    if end <= buffer.len() {
        let answer = create::new_empty(&mut buffer[..end], r, c);
        print_created(
            rt,
            n,
            r,
            c,
            test_support::code(answer),
            test_support::value(answer),
        )?;
    }
    Ok(())
}

// Both sections of rows 0, 1 and 2.
fn views<'a>(rt: &impl Print, first: &'a [u32], second: &'a [u32]) -> io::Result<()> {
    for i in 0..3u32 {
        test_support::print_number(rt, i)?;
        test_support::show(
            rt,
            b" columns",
            row_view::row_view(first, second, i, Section::Columns),
        )?;
        test_support::show(
            rt,
            b"  values",
            row_view::row_view(first, second, i, Section::Values),
        )?;
    }
    Ok(())
}

fn print_cell(rt: &impl Print, i: u32, j: u32, code: u32, value: Option<u32>) -> io::Result<()> {
    rt.write_all(b"cell ")?;
    test_support::print_number(rt, i)?;
    rt.write_all(b" ")?;
    test_support::print_number(rt, j)?;
    rt.write_all(b": ")?;
    test_support::print_number(rt, code)?;
    match value {
        Some(value) => {
            rt.write_all(b" present: ")?;
            test_support::print_number(rt, value)
        }
        None => rt.write_all(b" absent"),
    }
}

fn print_change(rt: &impl Print, at: u32, word: u32, code: u32, entries: u32) -> io::Result<()> {
    rt.write_all(b"word ")?;
    test_support::print_number(rt, at)?;
    rt.write_all(b" is ")?;
    test_support::print_number(rt, word)?;
    test_support::print_pair(rt, b": ", code, entries)
}

fn print_created(
    rt: &impl Print,
    n: u32,
    r: u32,
    c: u32,
    code: u32,
    entries: u32,
) -> io::Result<()> {
    test_support::print_number(rt, r)?;
    rt.write_all(b" by ")?;
    test_support::print_number(rt, c)?;
    rt.write_all(b" in ")?;
    test_support::print_number(rt, n)?;
    test_support::print_pair(rt, b" words: ", code, entries)
}
