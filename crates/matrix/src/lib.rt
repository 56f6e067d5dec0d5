// Matrices in words: what is valid, where the parts of a valid one are, and the header of one that is being written.
// Any words may be lent to `check` and `is_valid`; the functions that take a part out of a matrix want the facts of a
// valid one.

#![tactic(auto)]

use answers::Refusal;
use layout::{
    COLS_AT, COLUMNS_PAST, COUNT_AGAIN_PAST, COUNT_PAST, FIXED_WORDS, REVISION_AT,
    REVISION_COUNT_AT, ROWS_AT, SHAPE_COUNT_AT, START_COUNT_AT, STARTS_AT, VALUES_PAST,
};
use limits::{MAX_COLS, MAX_ENTRIES, MAX_REVISION, MAX_ROWS};

pub mod layout;

ghost use Rattle.std.specs.Prelude.{◌≡◌, ◌+◌, ◌<◌, length};
ghost use Rattle.conditions.specs.Tests.{all};
ghost use Rattle.answers.specs.Results.{answer};
ghost use Rattle.grid.specs.Revision.{next_revision};
ghost use Rattle.words.specs.Lent.{PartOf};
ghost use Rattle.matrix.specs.Layout.{revision_at, revision, rows, cols, entries, size, columns_from, values_from};
ghost use Rattle.matrix.specs.Valid.{in_range, climbs, header_valid, starts_valid, rows_valid, valid, check_answer};
ghost use Rattle.matrix.specs.Facts.{Header, Starts, RowSpan};
ghost use Rattle.matrix.specs.Falls.{falls_at_start, start_falls};
ghost use Rattle.matrix.specs.HeaderWords.{HeaderBounds, headed, with_revision, touched};

// N where the words begin with a valid matrix.
pub fn check(words: &[u32]) -> Result<u32, Refusal>
    ensures { answer result ≡ check_answer words.now }
{
    if is_valid(words) {
        Ok(entry_count(words))
    } else {
        Err(Refusal::InvalidFirst)
    }
}

// Whether the words begin with a valid matrix.
pub fn is_valid(words: &[u32]) -> bool
    ensures { result ≡ valid words.now }
{
    header_valid(words) && starts_valid(words) && rows_valid(words)
}

// The number of entries.
pub fn entry_count(words: &[u32]) -> u32
    requires { Header words.now }
    ensures { result ≡ entries words.now }
{
    let r = words[ROWS_AT] as usize;
    words[r + COUNT_PAST]
}

// The number of rows.
pub fn row_count(words: &[u32]) -> u32
    requires { Header words.now }
    ensures { result ≡ rows words.now }
{
    words[ROWS_AT]
}

// The number of columns.
pub fn col_count(words: &[u32]) -> u32
    requires { Header words.now }
    ensures { result ≡ cols words.now }
{
    words[COLS_AT]
}

// The number of words.
pub fn size(words: &[u32]) -> usize
    requires { Header words.now }
    ensures { result ≡ size words.now }
{
    row_count(words) as usize + 2 * entry_count(words) as usize + FIXED_WORDS
}

// The column numbers of row i.
pub fn row_columns(words: &[u32], i: usize) -> &[u32]
    requires { (Header words.now) × (RowSpan words.now i) }
    ensures { PartOf result words.entry (columns_from words.now i)
        (columns_from words.now (i + 1)) }
{
    let r = words[ROWS_AT] as usize;
    let from = r + COLUMNS_PAST + words[i + STARTS_AT] as usize;
    let to = r + COLUMNS_PAST + words[i + 1 + STARTS_AT] as usize;
    &words[from..to]
}

// The values of row i.
pub fn row_values(words: &[u32], i: usize) -> &[u32]
    requires { (Header words.now) × (RowSpan words.now i) }
    ensures { PartOf result words.entry (values_from words.now i)
        (values_from words.now (i + 1)) }
{
    let r = words[ROWS_AT] as usize;
    let n = words[r + COUNT_PAST] as usize;
    let from = r + n + VALUES_PAST + words[i + STARTS_AT] as usize;
    let to = r + n + VALUES_PAST + words[i + 1 + STARTS_AT] as usize;
    &words[from..to]
}

// The revision.
pub fn revision(words: &[u32]) -> u32
    requires { Header words.now }
    ensures { result ≡ revision words.now }
{
    words[REVISION_AT]
}

// The revision v after a call that writes into the matrix.
pub fn next_revision(v: u32) -> u32
    ensures { result ≡ next_revision v }
{
    if v == MAX_REVISION { 0 } else { v + 1 }
}

// The next revision; nothing else changes.
pub fn touch(words: &mut [u32])
    requires { revision_at < length words.old }
    ensures { words.new ≡ touched words.old }
{
    let v = words[REVISION_AT];
    words[REVISION_AT] = next_revision(v);
}

// Another revision; nothing else changes.
pub fn set_revision(words: &mut [u32], v: u32)
    requires { revision_at < length words.old }
    ensures { words.new ≡ with_revision v words.old }
{
    words[REVISION_AT] = v;
}

// The header of a new matrix of the given rows, columns and entries: the revision 0, the shape and the count of each section.
// The row starts, the column numbers and the values are written apart from it.
pub fn write_header(words: &mut [u32], rows: u32, cols: u32, count: u32)
    requires { HeaderBounds rows count words.old }
    ensures { words.new ≡ headed rows cols count words.old }
{
    let count_at = rows as usize + COUNT_PAST;
    let count_again_at = rows as usize + count as usize + COUNT_AGAIN_PAST;
    words[REVISION_COUNT_AT] = 1;
    words[REVISION_AT] = 0;
    words[SHAPE_COUNT_AT] = 2;
    words[ROWS_AT] = rows;
    words[COLS_AT] = cols;
    words[START_COUNT_AT] = rows + 1;
    words[count_at] = count;
    words[count_again_at] = count;
}

// Whether a number of rows or columns is 1 to the limit.
pub fn in_range(x: u32, limit: u32) -> bool
    ensures { result ≡ in_range limit x }
{
    1 <= x && x <= limit
}

// The counts, the shape and the size.
fn header_valid(words: &[u32]) -> bool
    ensures { result ≡ header_valid words.now }
{
    if words.len() < FIXED_WORDS + 1 {
        return false;
    }
    if words[REVISION_COUNT_AT] != 1 {
        return false;
    }
    if words[SHAPE_COUNT_AT] != 2 {
        return false;
    }
    let r = words[ROWS_AT];
    if !in_range(r, MAX_ROWS) {
        return false;
    }
    if !in_range(words[COLS_AT], MAX_COLS) {
        return false;
    }
    if words[START_COUNT_AT] != r + 1 {
        return false;
    }
    let rows = r as usize;
    if words.len() < rows + FIXED_WORDS {
        return false;
    }
    let count = words[rows + COUNT_PAST];
    if MAX_ENTRIES < count {
        return false;
    }
    let n = count as usize;
    if words.len() < rows + 2 * n + FIXED_WORDS {
        return false;
    }
    words[rows + n + COUNT_AGAIN_PAST] == count
}

// The row starts: they begin at 0, never fall, and end at N.
fn starts_valid(words: &[u32]) -> bool
    requires { Header words.now }
    ensures { result ≡ starts_valid words.now }
{
    let r = words[ROWS_AT] as usize;
    words[STARTS_AT] == 0 && words[r + STARTS_AT] == words[r + COUNT_PAST] && starts_climb(words)
}

// Whether no start is below the one before it. It does not stop early and has the flag last in the test, so that it goes
// over several starts at a time.
fn starts_climb(words: &[u32]) -> bool
    requires { Header words.now }
    ensures { result ≡ all (rows words.now) (climbs words.now) }
{
    let mut climb = true;
    for i in 0..words[ROWS_AT] as usize {
        climb = words[i + STARTS_AT] <= words[i + 1 + STARTS_AT] && climb;
    }
    climb
}

// The column numbers of every row: all are below the number of columns, and a word from N on is followed by one that is not
// above it only where a row starts.
fn rows_valid(words: &[u32]) -> bool
    requires header { Header words.now }
    requires starts { Starts words.now }
    ensures { result ≡ rows_valid words.now }
{
    let r = words[ROWS_AT] as usize;
    let count_at = r + COUNT_PAST;
    let from = r + COLUMNS_PAST;
    let to = from + words[count_at] as usize;
    column_order::all_below(&words[from..to], words[COLS_AT])
        && column_order::fall_count(&words[count_at..to]) == start_falls(words)
}

// How often the first column number of a row is not above the word before it.
fn start_falls(words: &[u32]) -> u32
    requires header { Header words.now }
    requires starts { Starts words.now }
    ensures { result ≡ start_falls words.now }
{
    let mut falls = 0;
    for i in 0..words[ROWS_AT] as usize {
        falls += u32::from(falls_at_start(words, i));
    }
    falls
}

// Whether row i has entries and the first of its column numbers is not above the word before it.
fn falls_at_start(words: &[u32], i: usize) -> bool
    requires header { Header words.now }
    requires row { RowSpan words.now i }
    ensures { result ≡ falls_at_start words.now i }
{
    let start = words[i + STARTS_AT];
    let at = words[ROWS_AT] as usize + COUNT_PAST + start as usize;
    start < words[i + 1 + STARTS_AT] && words[at + 1] <= words[at]
}
