// A matrix as text (document 02, A1): a line "R C N", then a line "row column value" for each entry in order, in signed
// decimals, each ended by a newline byte. The functions that append answer where the next byte goes.

#![tactic(auto)]

ghost use Rattle.std.specs.Prelude.{◌≡◌, ◌+◌, ◌≤◌, length};
ghost use Rattle.matrix.specs.Layout.{rows, cols, cell_of, grid_of};
ghost use Rattle.matrix.specs.Facts.{Matrix};
ghost use Rattle.append.specs.Appended.{Appended};
ghost use Rattle.text.specs.Text.{entry_line, rows_text, text_of, max_text_bytes, text_result, TextWritten};
ghost use Rattle.text.specs.Lines.{lines_to};

use answers::Refusal;
use limits::MAX_ENTRIES;

// The bytes of the largest text: "1000 1000 2048" and 2,048 lines such as "100 100 -2147483648".
pub const MAX_TEXT_BYTES: usize = 15 + MAX_ENTRIES as usize * 20;

const NEWLINE: u8 = b'\n';

const SPACE: u8 = b' ';

// The text of a matrix at the front of the buffer: how many bytes were written; what lies behind them stays.
// InvalidFirst where the words are no valid matrix, InsufficientSpace where the buffer is shorter than MAX_TEXT_BYTES.
pub fn write_text(words: &[u32], out: &mut [u8]) -> Result<u32, Refusal>
    ensures { TextWritten words.now out.old (text_result result) out.new }
{
    if !matrix::is_valid(words) {
        return Err(Refusal::InvalidFirst);
    }
    if out.len() < MAX_TEXT_BYTES {
        return Err(Refusal::InsufficientSpace);
    }
    Ok(put_matrix(words, out) as u32)
}

// The text of a valid matrix.
fn put_matrix(words: &[u32], out: &mut [u8]) -> usize
    requires matrix { Matrix words.now }
    requires room { max_text_bytes ≤ length out.old }
    ensures text { Appended (text_of (grid_of words.now)) out.old out.new 0 result }
    ensures short { result ≤ max_text_bytes }
{
    let at = put_line(
        out,
        0,
        matrix::row_count(words),
        matrix::col_count(words),
        matrix::entry_count(words),
    );
    put_rows(words, out, at)
}

// The lines of all rows.
fn put_rows(words: &[u32], out: &mut [u8], from: usize) -> usize
    requires matrix { Matrix words.now }
    requires room { from + length (rows_text (cols words.now) (cell_of words.now) (rows words.now)) ≤ length out.old }
    ensures { Appended (rows_text (cols words.now) (cell_of words.now)
        (rows words.now)) out.old out.new from result }
{
    let mut at = from;
    for i in 0..matrix::row_count(words) {
        let row = i as usize;
        at = put_row(
            out,
            at,
            i,
            matrix::row_columns(words, row),
            matrix::row_values(words, row),
        );
    }
    at
}

// The lines of row i, whose entries are given by their columns and their values.
fn put_row(out: &mut [u8], from: usize, i: u32, columns: &[u32], values: &[u32]) -> usize
    requires even { length values.now ≡ length columns.now }
    requires room { from + length (lines_to i columns.now values.now (length columns.now)) ≤ length out.old }
    ensures { Appended (lines_to i columns.now values.now (length columns.now))
        out.old out.new from result }
{
    let mut at = from;
    for (column, value) in columns.iter().zip(values) {
        at = put_line(out, at, i, *column, *value);
    }
    at
}

// Three numbers in a line, the last one signed.
fn put_line(out: &mut [u8], at: usize, a: u32, b: u32, c: u32) -> usize
    requires { at + length (entry_line a b c) ≤ length out.old }
    ensures { Appended (entry_line a b c) out.old out.new at result }
{
    let after_first = decimals::put_decimal(out, at, a);
    let second = append::put_byte(out, after_first, SPACE);
    let after_second = decimals::put_decimal(out, second, b);
    let third = append::put_byte(out, after_second, SPACE);
    let after_third = decimals::put_signed(out, third, c);
    append::put_byte(out, after_third, NEWLINE)
}
