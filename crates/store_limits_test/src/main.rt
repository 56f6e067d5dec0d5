// Runs the calls on a store on both sides of its limits: room to the word, words that are no store, the shortest and the
// longest, the most entries. For each call: the answer, and the words of a small store.

#![tactic(auto)]

use std::io;
use store_runs::{clear, drop, lay, read, set};

fn main(rt: HostRuntime) -> io::Result<()> {
    room_to_the_word(&rt)?;
    damage(&rt)?;
    shortest(&rt)?;
    longest(&rt)?;
    too_long(&rt)?;
    entries_at_limit(&rt)
}

// Lengths that a matrix and the counts fill, and one word less.
fn room_to_the_word(rt: &impl Print) -> io::Result<()> {
    let mut exact = [0u32; 20];
    let mut short = [0u32; 19];
    test_support::heading(rt, b"room to the word")?;
    lay(rt, &mut exact, 3, 1, 1)?;
    lay(rt, &mut short, 3, 1, 1)?;
    set(rt, &mut exact, 3, 0, 0, 1)?;
    set(rt, &mut short, 3, 0, 0, 1)?;
    lay(rt, &mut exact, 3, 3, 1)?;
    lay(rt, &mut exact, 3, 4, 1)?;
    lay(rt, &mut short, 3, 3, 1)?;
    lay(rt, &mut short, 3, 2, 1)
}

// Words that are no store: a count that is too large or too small, a matrix that is none, a word behind the sections.
fn damage(rt: &impl Print) -> io::Result<()> {
    let mut words = [0u32; 22];
    test_support::heading(rt, b"damage")?;
    lay(rt, &mut words, 1, 2, 1)?;
    set(rt, &mut words, 1, 1, 0, 4)?;
    damaged(rt, &mut words, 0, 1)?;
    damaged(rt, &mut words, 1, 12)?;
    damaged(rt, &mut words, 1, 14)?;
    damaged(rt, &mut words, 1, 4294967295)?;
    damaged(rt, &mut words, 2, 2)?;
    damaged(rt, &mut words, 4, 3)?;
    damaged(rt, &mut words, 21, 1)
}

// One word changed: every call is refused, and changes nothing. Then the word is put back.
fn damaged(rt: &impl Print, words: &mut [u32; 22], at: usize, word: u32) -> io::Result<()> {
    let old = test_support::word(words, at);
    test_support::put(words, at, word);
    test_support::print_pair(rt, b"word: ", word, 0)?;
    read(rt, words, 1, 1, 0)?;
    clear(rt, words, 1, 1, 0)?;
    drop(rt, words, 1)?;
    lay(rt, words, 0, 1, 1)?;
    test_support::put(words, at, old);
    read(rt, words, 1, 1, 0)
}

// 0 to 8 words.
fn shortest(rt: &impl Print) -> io::Result<()> {
    let mut words = [0u32; 8];
    test_support::heading(rt, b"0 to 8 words")?;
    drop_in(rt, &mut words, 0)?;
    drop_in(rt, &mut words, 1)?;
    drop_in(rt, &mut words, 2)?;
    drop_in(rt, &mut words, 3)?;
    drop_in(rt, &mut words, 4)?;
    drop_in(rt, &mut words, 5)?;
    drop_in(rt, &mut words, 6)?;
    drop_in(rt, &mut words, 7)?;
    drop_in(rt, &mut words, 8)?;
    lay(rt, &mut words, 0, 1, 1)
}

// The first n words as a store.
fn drop_in(rt: &impl Print, words: &mut [u32], n: usize) -> io::Result<()> {
    if n <= words.len() {
        let r = store_cells::drop_slot(&mut words[..n], 7);
        test_support::print_pair(rt, b"drop: ", test_support::code(r), test_support::value(r))?;
    }
    Ok(())
}

// 16,384 words are a store, and one more are none.
fn longest(rt: &impl Print) -> io::Result<()> {
    let mut words = [0u32; 16384];
    test_support::heading(rt, b"16384 words")?;
    lay(rt, &mut words, 7, 1000, 1000)?;
    lay(rt, &mut words, 0, 1000, 1001)?;
    lay(rt, &mut words, 0, 1001, 1000)?;
    drop(rt, &mut words, 7)
}

fn too_long(rt: &impl Print) -> io::Result<()> {
    let mut words = [0u32; 16385];
    test_support::heading(rt, b"16385 words")?;
    lay(rt, &mut words, 7, 1, 1)?;
    drop(rt, &mut words, 7)
}

// 2,048 entries, one more, and a value in place of another.
fn entries_at_limit(rt: &impl Print) -> io::Result<()> {
    let mut words = [0u32; 5113];
    test_support::heading(rt, b"2048 entries in 5113 words")?;
    lay(rt, &mut words, 1, 1000, 1000)?;
    fill(rt, &mut words, 1, 2047)?;
    set(rt, &mut words, 1, 999, 3, 9)?;
    set(rt, &mut words, 1, 999, 4, 9)?;
    set(rt, &mut words, 1, 999, 3, 8)?;
    read(rt, &words, 1, 999, 3)?;
    read(rt, &words, 1, 999, 4)?;
    clear(rt, &mut words, 1, 488, 0)?;
    lay(rt, &mut words, 0, 1, 1)?;
    set(rt, &mut words, 1, 999, 4, 9)?;
    set(rt, &mut words, 1, 488, 0, 9)
}

// n entries of a slot, four to a row from row 488 on.
fn fill(rt: &impl Print, store: &mut [u32], slot: usize, n: u32) -> io::Result<()> {
    for k in 0..n {
        put_entry(rt, store, slot, k)?;
    }
    Ok(())
}

fn put_entry(rt: &impl Print, store: &mut [u32], slot: usize, k: u32) -> io::Result<()> {
    let i = 488u32.wrapping_add(k / 4);
    let r = store_cells::set_cell(store, slot, i, k % 4, k);
    if r.is_err() {
        test_support::print_pair(rt, b"set: ", test_support::code(r), test_support::value(r))?;
    }
    Ok(())
}
