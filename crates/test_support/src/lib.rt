// What the test programs share: numbers and words printed, and large matrices built word by word.

#![tactic(auto)]

use answers::Refusal;
use grid::EntryAt;
use std::io;

// The word at k, or 0 past the end.
pub fn word(words: &[u32], k: usize) -> u32 {
    if k < words.len() { words[k] } else { 0 }
}

// A matrix with n entries, four to a row in the last 512 rows; the very last row has those from 2,044 on.
pub fn build(words: &mut [u32], r: u32, c: u32, n: u32, last_row: usize) {
    build_shape(words, r, c);
    let rows = r as usize;
    let entries = n as usize;
    put(words, past(rows, 6), n);
    put(words, past(rows, 7), n);
    build_columns(words, past(rows, 8), entries, last_row);
    put(words, past(past(rows, 8), entries), n);
    put_run(words, past(past(rows, 9), entries), entries, 1, 4294967295);
}

fn build_columns(words: &mut [u32], at: usize, entries: usize, last_row: usize) {
    put_run(words, at, entries, 1, 3);
    put_run(words, past(at, 2044), last_row, 1, 4294967295);
}

fn build_shape(words: &mut [u32], r: u32, c: u32) {
    put_words(words, 0, &[1, 0, 2, r, c]);
    put(words, 5, r.wrapping_add(1));
    let rows = r as usize;
    put_run(words, 6, rows, 0, 4294967295);
    put_run(words, rows.wrapping_sub(506), 512, 4, 4294967295);
}

// The words of a matrix of revision 0, from its shape and its three lists.
pub fn store(
    words: &mut [u32],
    rows: u32,
    cols: u32,
    starts: &[u32],
    columns: &[u32],
    values: &[u32],
) {
    put_words(words, 0, &[1, 0, 2, rows, cols]);
    put_list(words, 5, starts);
    let columns_at = past(starts.len(), 6);
    put_list(words, columns_at, columns);
    put_list(words, past(columns_at, past(columns.len(), 1)), values);
}

// The length of a list and then the list, from `at` on. No list of the tests is longer than 4,096.
fn put_list(words: &mut [u32], at: usize, list: &[u32]) {
    let n = list.len();
    if n <= 4096 {
        put(words, at, n as u32);
        put_words(words, past(at, 1), list);
    }
}

fn put_words(words: &mut [u32], at: usize, list: &[u32]) {
    for (k, word) in list.iter().enumerate() {
        put(words, past(at, k), *word);
    }
}

pub fn past(a: usize, b: usize) -> usize {
    a.wrapping_add(b)
}

// n words from `at` on: 0, step, 2 * step and so on, starting again after `last`.
pub fn put_run(words: &mut [u32], at: usize, n: usize, step: u32, last: u32) {
    let mut word: u32 = 0;
    for k in 0..n {
        put(words, past(at, k), word);
        if word == last {
            word = 0;
        } else {
            word = word.wrapping_add(step);
        }
    }
}

pub fn put(words: &mut [u32], at: usize, word: u32) {
    if at < words.len() {
        words[at] = word;
    }
}

pub fn show(rt: &impl Print, label: &[u8], part: &[u32]) -> io::Result<()> {
    rt.write_all(label)?;
    rt.write_all(b":")?;
    for word in part {
        rt.write_all(b" ")?;
        print_number(rt, *word)?;
    }
    rt.write_all(b"\n")
}

pub fn print_pair(rt: &impl Print, label: &[u8], code: u32, entries: u32) -> io::Result<()> {
    rt.write_all(label)?;
    print_number(rt, code)?;
    rt.write_all(b" ")?;
    print_number(rt, entries)?;
    rt.write_all(b"\n")
}

// The answer of a call that has a workspace, and whether the workspace is all zeros.
pub fn print_call(
    rt: &impl Print,
    label: &[u8],
    code: u32,
    entries: u32,
    work: &[u32],
) -> io::Result<()> {
    rt.write_all(label)?;
    rt.write_all(b": ")?;
    print_number(rt, code)?;
    rt.write_all(b" ")?;
    print_number(rt, entries)?;
    if all_zero(work) {
        rt.write_all(b", workspace clear\n")
    } else {
        rt.write_all(b", workspace NOT clear\n")
    }
}

pub fn print_word(rt: &impl Print, label: &[u8], word: u32) -> io::Result<()> {
    rt.write_all(label)?;
    rt.write_all(b": ")?;
    print_number(rt, word)?;
    rt.write_all(b"\n")
}

pub fn print_number(rt: &impl Print, n: u32) -> io::Result<()> {
    rt.print(n)
}

pub fn heading(rt: &impl Print, text: &[u8]) -> io::Result<()> {
    rt.write_all(text)?;
    rt.write_all(b"\n")
}

// Whether all words are 0.
pub fn all_zero(words: &[u32]) -> bool {
    for word in words {
        if *word != 0 {
            return false;
        }
    }
    true
}

// The code of what a call gives: 0, or the number of the refusal.
pub fn code<T: Copy>(outcome: Result<T, Refusal>) -> u32 {
    match outcome {
        Ok(_) => 0,
        Err(refusal) => refusal.number(),
    }
}

// The number that a call gives, or 0.
pub fn value(outcome: Result<u32, Refusal>) -> u32 {
    outcome.unwrap_or(0)
}

// The value of a cell that is read, if there is one.
pub fn cell_value(outcome: Result<EntryAt, Refusal>) -> Option<u32> {
    match outcome {
        Ok(EntryAt::Present { value, position: _ }) => Some(value),
        _ => None,
    }
}

// The position of a cell that is read, or 0.
pub fn cell_position(outcome: Result<EntryAt, Refusal>) -> u32 {
    match outcome {
        Ok(entry) => grid::position_of(entry),
        Err(_) => 0,
    }
}
