// The program of document 02, A1: it reads a file from standard input and prints it as text, or the line "refused 15"
// alone. The input is read to its end, however it arrives: what comes after the longest file makes it no file.

#![tactic(auto)]

ghost use Rattle.std.specs.Prelude.{◌≤◌, length};

use files::MAX_FILE_BYTES;
use matrix::layout::MAX_MATRIX_WORDS;
use std::io;
use std::io::Read;
use text::MAX_TEXT_BYTES;

fn main(rt: HostRuntime) -> io::Result<()> {
    let mut input = rt.stdin();
    let mut bytes = [0u8; MAX_FILE_BYTES];
    let length = read_full(&mut input, &mut bytes);
    if more(&mut input) {
        drain(&mut input);
        return refuse(&rt);
    }
    print_file(&rt, &bytes[..length])
}

// Reads until the buffer is full, the input ends or cannot be read: how many bytes are at its front. An empty rest of
// the buffer reads 0 bytes.
fn read_full(input: &mut impl Read, bytes: &mut [u8]) -> usize
    ensures { result ≤ length bytes.new }
{
    let mut done = 0;
    for _ in 0..u64::MAX {
        match input.read(&mut bytes[done..]) {
            Ok(0) | Err(_) => break,
            Ok(n) => done += n,
        }
    }
    done
}

// The text of a file, or the refusal.
fn print_file(rt: &impl Print, bytes: &[u8]) -> io::Result<()> {
    let mut words = [0u32; MAX_MATRIX_WORDS];
    if files::read_file(bytes, &mut words).is_err() {
        return refuse(rt);
    }
    let mut out = [0u8; MAX_TEXT_BYTES];
    let length = text::write_text(&words, &mut out).unwrap_or(0);
    print_front(rt, &out, length as usize)
}

// The first n bytes.
fn print_front(rt: &impl Print, out: &[u8], n: usize) -> io::Result<()> {
    if n <= out.len() {
        rt.write_all(&out[..n])?;
    }
    Ok(())
}

fn refuse(rt: &impl Print) -> io::Result<()> {
    rt.write_all(b"refused 15\n")
}

// Reads once: whether the input has not ended, or cannot be read.
fn more(input: &mut impl Read) -> bool {
    let mut rest = [0u8; 4096];
    !matches!(input.read(&mut rest), Ok(0))
}

// Reads on to the end of the input, so that whoever writes it is not cut off. A proved loop has to end, and nothing
// says that the input does: its turns are a number that no run uses up. It stops too where the input cannot be read.
fn drain(input: &mut impl Read) {
    for _ in 0..u64::MAX {
        if !some(input) {
            break;
        }
    }
}

fn some(input: &mut impl Read) -> bool {
    let mut rest = [0u8; 4096];
    matches!(input.read(&mut rest), Ok(1..))
}
