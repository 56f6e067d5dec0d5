// Runs the calls on files and texts on document 01's strip and on the largest matrix, on both sides of each length, and
// prints what they answer: a code and a number.

#![tactic(auto)]

use files::MAX_FILE_BYTES;
use matrix::layout::MAX_MATRIX_WORDS;
use std::io;
use text::MAX_TEXT_BYTES;

fn main(rt: HostRuntime) -> io::Result<()> {
    strip(&rt)?;
    largest(&rt)
}

// Document 01's strip: 16 words, 64 bytes; 14 words, 56 bytes in the old form.
fn strip(rt: &impl Print) -> io::Result<()> {
    let words: [u32; 18] = [1, 5, 2, 1, 4, 2, 0, 3, 3, 0, 1, 3, 3, 10, 20, 40, 7, 8];
    let mut bytes = [9u8; 72];
    test_support::heading(rt, b"strip")?;
    writes(rt, &words, &mut bytes)?;
    let mut held = [5u32; 18];
    refused_reads(rt, &bytes, &mut held)?;
    reads(rt, &bytes, &mut held)?;
    old_reads(rt, &bytes[8..], &mut held)?;
    texts(rt, &held)
}

fn writes(rt: &impl Print, words: &[u32], bytes: &mut [u8]) -> io::Result<()> {
    write(rt, words, 15, bytes, 0)?;
    write(rt, words, 18, bytes, 63)?;
    write(rt, words, 18, bytes, 72)?;
    show_byte(rt, &bytes[..], 0)?;
    show_byte(rt, &bytes[..], 4)?;
    show_byte(rt, &bytes[..], 52)?;
    show_byte(rt, &bytes[..], 63)?;
    show_byte(rt, &bytes[..], 64)
}

fn refused_reads(rt: &impl Print, bytes: &[u8], held: &mut [u32]) -> io::Result<()> {
    read(rt, bytes, 0, held, 0)?;
    read(rt, bytes, 3, held, 18)?;
    read(rt, bytes, 60, held, 18)?;
    read(rt, bytes, 63, held, 18)?;
    read(rt, bytes, 65, held, 18)
}

fn reads(rt: &impl Print, bytes: &[u8], held: &mut [u32]) -> io::Result<()> {
    read(rt, bytes, 68, held, 18)?;
    read(rt, bytes, 64, held, 15)?;
    test_support::show(rt, b"untouched", &held[..])?;
    read(rt, bytes, 64, held, 18)?;
    test_support::show(rt, b"read", &held[..])
}

// The same file in the old form, with no revision: read, it has the revision 0 and takes two words more.
fn old_reads(rt: &impl Print, bytes: &[u8], held: &mut [u32]) -> io::Result<()> {
    read(rt, bytes, 52, held, 18)?;
    read(rt, bytes, 57, held, 18)?;
    read(rt, bytes, 56, held, 15)?;
    test_support::show(rt, b"untouched", &held[..])?;
    read(rt, bytes, 56, held, 16)?;
    test_support::show(rt, b"read, old form", &held[..])
}

fn texts(rt: &impl Print, held: &[u32]) -> io::Result<()> {
    let mut out = [0u8; MAX_TEXT_BYTES];
    print_text(rt, held, 18, &mut out, MAX_TEXT_BYTES)?;
    print_text(rt, held, 18, &mut out, MAX_TEXT_BYTES - 1)?;
    print_text(rt, held, 15, &mut out, 0)
}

// 1,000 by 1,000 with 2,048 entries, all in rows and columns of three digits, all values the smallest: the largest file
// and the largest text.
fn largest(rt: &impl Print) -> io::Result<()> {
    let mut words = [0u32; MAX_MATRIX_WORDS];
    test_support::heading(rt, b"largest")?;
    test_support::build(&mut words, 1000, 1000, 2048, 4);
    add(&mut words, 1008, 2048, 100);
    test_support::put_run(&mut words, 3057, 2048, 0, 1);
    add(&mut words, 3057, 2048, 2147483648);
    let mut bytes = [0u8; MAX_FILE_BYTES + 4];
    write(rt, &words, MAX_MATRIX_WORDS, &mut bytes, MAX_FILE_BYTES - 1)?;
    write(rt, &words, MAX_MATRIX_WORDS, &mut bytes, MAX_FILE_BYTES)?;
    read_largest(rt, &bytes)
}

fn read_largest(rt: &impl Print, bytes: &[u8]) -> io::Result<()> {
    let mut held = [0u32; MAX_MATRIX_WORDS];
    read(rt, bytes, MAX_FILE_BYTES - 4, &mut held, MAX_MATRIX_WORDS)?;
    read(rt, bytes, MAX_FILE_BYTES + 1, &mut held, MAX_MATRIX_WORDS)?;
    read(rt, bytes, MAX_FILE_BYTES + 4, &mut held, MAX_MATRIX_WORDS)?;
    read(rt, bytes, MAX_FILE_BYTES, &mut held, MAX_MATRIX_WORDS - 1)?;
    read(rt, bytes, MAX_FILE_BYTES, &mut held, MAX_MATRIX_WORDS)?;
    let mut out = [0u8; MAX_TEXT_BYTES];
    let answer = text::write_text(&held, &mut out);
    test_support::print_pair(
        rt,
        b"text: ",
        test_support::code(answer),
        test_support::value(answer),
    )
}

// The first n words as a file into the first m bytes.
fn write(rt: &impl Print, words: &[u32], n: usize, bytes: &mut [u8], m: usize) -> io::Result<()> {
    if n <= words.len() {
        write_front(rt, &words[..n], bytes, m)?;
    }
    Ok(())
}

fn write_front(rt: &impl Print, words: &[u32], bytes: &mut [u8], m: usize) -> io::Result<()> {
    if m <= bytes.len() {
        let answer = files::write_file(words, &mut bytes[..m]);
        print_answer(
            rt,
            b"written, bytes ",
            m,
            test_support::code(answer),
            test_support::value(answer),
        )?;
    }
    Ok(())
}

// The first n bytes as a file into the first m words.
fn read(rt: &impl Print, bytes: &[u8], n: usize, words: &mut [u32], m: usize) -> io::Result<()> {
    if n <= bytes.len() {
        read_front(rt, &bytes[..n], words, m)?;
    }
    Ok(())
}

fn read_front(rt: &impl Print, bytes: &[u8], words: &mut [u32], m: usize) -> io::Result<()> {
    if m <= words.len() {
        let answer = files::read_file(bytes, &mut words[..m]);
        print_answer(
            rt,
            b"read, bytes ",
            bytes.len(),
            test_support::code(answer),
            test_support::value(answer),
        )?;
    }
    Ok(())
}

fn print_answer(
    rt: &impl Print,
    label: &[u8],
    length: usize,
    code: u32,
    entries: u32,
) -> io::Result<()> {
    rt.write_all(label)?;
    rt.print(length as u64)?;
    test_support::print_pair(rt, b": ", code, entries)
}

// The text of the first n words in the first m bytes.
fn print_text(
    rt: &impl Print,
    words: &[u32],
    n: usize,
    out: &mut [u8],
    m: usize,
) -> io::Result<()> {
    if n <= words.len() {
        print_text_front(rt, &words[..n], out, m)?;
    }
    Ok(())
}

fn print_text_front(rt: &impl Print, words: &[u32], out: &mut [u8], m: usize) -> io::Result<()> {
    if m <= out.len() {
        let answer = text::write_text(words, &mut out[..m]);
        test_support::print_pair(
            rt,
            b"text: ",
            test_support::code(answer),
            test_support::value(answer),
        )?;
        print_front(rt, &out[..], test_support::value(answer) as usize)?;
    }
    Ok(())
}

fn print_front(rt: &impl Print, out: &[u8], n: usize) -> io::Result<()> {
    if n <= out.len() {
        rt.write_all(&out[..n])?;
    }
    Ok(())
}

fn show_byte(rt: &impl Print, bytes: &[u8], at: usize) -> io::Result<()> {
    if at < bytes.len() {
        rt.write_all(b"byte ")?;
        rt.print(at as u64)?;
        rt.write_all(b" is ")?;
        rt.print(u64::from(bytes[at]))?;
        rt.write_all(b"\n")?;
    }
    Ok(())
}

// n words from `at` on get larger by this.
fn add(words: &mut [u32], at: usize, n: usize, by: u32) {
    for k in 0..n {
        let here = test_support::past(at, k);
        let sum = test_support::word(&words[..], here).wrapping_add(by);
        test_support::put(words, here, sum);
    }
}
