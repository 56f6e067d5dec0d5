// A day matrix over a base matrix (document 02, A7) on lent matrices. Both are of one shape, and the marks are a vector
// with an entry, whatever its value, for each rewritten row. Any words and any numbers may be lent: a call gives a
// number of entries or a cell, or the lowest refusal that applies. A refused call changes no word; both
// matrices that a call writes are looked at before either is written. There is no workspace.

#![tactic(auto)]

ghost use Rattle.std.specs.Prelude.{◌≡◌, ◌+◌, ◌≤◌, ◌<◌};
ghost use Rattle.limits.specs.Limits.{max_entries};
ghost use Rattle.answers.specs.Results.{answer, cell_answer};
ghost use Rattle.matrix.specs.Layout.{rows, start, entries};
ghost use Rattle.matrix.specs.Facts.{Matrix};
ghost use Rattle.row_view.specs.View.{Shown, place_of};
ghost use Rattle.row_edits.specs.Replacing.{count_with};
ghost use Rattle.day_requests.specs.Refusal.{rewrite_refusal};
ghost use Rattle.day_calls.specs.Calls.{Rewritten, TakenBack, through_answer, Folded};
ghost use Rattle.day_calls.specs.Show.{showable, day_view};

use answers::Refusal;
use grid::EntryAt;
use limits::MAX_ENTRIES;
use matrix::layout::{FIXED_WORDS, ROWS_AT, STARTS_AT};
use row_view::{Place, Section};

// Row i of the day matrix becomes `row`, a vector, and is marked with 1; the number of the day matrix's entries.
// Refusals: 4 day, 5 marks, 6 row, 7 a row past the day matrix, 8 shapes, 10 too many entries, 11 a buffer of the two.
pub fn rewrite_row(day: &mut [u32], marks: &mut [u32], i: u32, row: &[u32]) -> Result<u32, Refusal>
    ensures { Rewritten day.old marks.old i row.now (answer result) day.new
        marks.new }
{
    day_requests::rewrite_refusal(&day[..], &marks[..], i, row)?;
    rewrite(day, marks, i, row)
}

// The same, where none of 4 to 8 applies.
fn rewrite(day: &mut [u32], marks: &mut [u32], i: u32, row: &[u32]) -> Result<u32, Refusal>
    requires { rewrite_refusal day.old marks.old i row.now ≡ 0 }
    ensures { Rewritten day.old marks.old i row.now (answer result) day.new
        marks.new }
{
    let n = count_with(&day[..], i as usize, matrix::entry_count(row));
    if MAX_ENTRIES < n {
        return Err(Refusal::TooManyEntries);
    }
    if day.len() < day[ROWS_AT] as usize + 2 * n as usize + FIXED_WORDS {
        return Err(Refusal::InsufficientSpace);
    }
    let entry = cells::entry_at(&marks[..], 0, i).entry;
    if marks.len() < matrix::size(&marks[..]) + day_marks::mark_words(entry) {
        return Err(Refusal::InsufficientSpace);
    }
    row_edits::replace_row(
        day,
        i as usize,
        matrix::row_columns(row, 0),
        matrix::row_values(row, 0),
    );
    day_marks::put_mark(marks, i, entry);
    Ok(n)
}

// The rewrite of row i is taken back: its entries in the day matrix go, and its mark, if there is one; the number
// of the day matrix's entries.
// Refusals: 4 day, 5 marks, 7 a row past the day matrix, 8 shapes.
pub fn take_back(day: &mut [u32], marks: &mut [u32], i: u32) -> Result<u32, Refusal>
    ensures { TakenBack day.old marks.old i (answer result) day.new marks.new }
{
    day_requests::back_refusal(&day[..], &marks[..], i)?;
    let n = count_with(&day[..], i as usize, 0);
    row_edits::replace_row(day, i as usize, &[], &[]);
    day_marks::take_mark(marks, i);
    Ok(n)
}

// One cell through the pair, with the position of its entry in the matrix that its row is shown from.
// Refusals: 3 base, 4 day, 5 marks, 7 a row or column past the base matrix, 8 shapes.
pub fn read_through<'a>(
    base: &'a [u32],
    day: &'a [u32],
    marks: &[u32],
    i: u32,
    j: u32,
) -> Result<EntryAt, Refusal>
    ensures { cell_answer result ≡ through_answer base.now day.now marks.now i j }
{
    day_requests::read_refusal(base, day, marks, i, j)?;
    let shown = day_marks::shown(base, day, marks, i);
    Ok(cells::entry_at(shown, i as usize, j).entry)
}

// Both folded into a new matrix in `out`, whatever that held; its number of entries.
// Refusals: 3 base, 4 day, 5 marks, 8 shapes, 10 too many entries, 11 the buffer.
pub fn fold<'a>(
    base: &'a [u32],
    day: &'a [u32],
    marks: &[u32],
    out: &mut [u32],
) -> Result<u32, Refusal>
    ensures { Folded base.now day.now marks.now out.old (answer result)
        out.new }
{
    day_requests::pair_refusal(base, day, marks)?;
    let n = day_folds::folded_count(base, day, marks);
    if (MAX_ENTRIES as usize) < n {
        return Err(Refusal::TooManyEntries);
    }
    if out.len() < base[ROWS_AT] as usize + 2 * n + FIXED_WORDS {
        return Err(Refusal::InsufficientSpace);
    }
    day_folds::write_folded(base, day, marks, n, out);
    Ok(n as u32)
}

// The part of row i that is shown: of the day matrix where the row is marked, else of the base matrix. No number: where
// a matrix is damaged, the shapes differ or the row does not exist, the part is empty.
pub fn show_row<'a>(
    base: &'a [u32],
    day: &'a [u32],
    marks: &[u32],
    i: u32,
    section: Section,
) -> &'a [u32]
    ensures { Shown result base.entry day.entry (day_view section base.now day.now
        marks.now i) }
{
    if !row_showable(base, day, marks, i) {
        return &base[0..0];
    }
    if day_marks::is_marked(marks, i) {
        row_view::row_section(day, i as usize, section)
    } else {
        row_view::row_section(base, i as usize, section)
    }
}

// Where the part lies that `show_row` shows, for a host that cannot take a part of its own words back: in the second
// matrix, which is the day matrix, or in the first.
pub fn place_shown(base: &[u32], day: &[u32], marks: &[u32], i: u32, section: Section) -> Place
    ensures { result ≡ place_of (day_view section base.now day.now marks.now i) }
{
    if !row_showable(base, day, marks, i) {
        return Place {
            in_second: false,
            from: 0,
            count: 0,
        };
    }
    if day_marks::is_marked(marks, i) {
        row_view::section_place(day, i as usize, section, true)
    } else {
        row_view::section_place(base, i as usize, section, false)
    }
}

// Whether the matrices fit together and have row i.
fn row_showable(base: &[u32], day: &[u32], marks: &[u32], i: u32) -> bool
    ensures { result ≡ showable base.now day.now marks.now i }
{
    day_requests::pair_refusal(base, day, marks).is_ok() && i < base[ROWS_AT]
}

// How many entries a matrix has with k in row i.
fn count_with(words: &[u32], i: usize, k: u32) -> u32
    requires matrix { Matrix words.now }
    requires row { i < rows words.now }
    requires few { k ≤ max_entries }
    ensures { result ≡ count_with (entries words.now) (start words.now i)
        (start words.now (i + 1)) k }
{
    matrix::entry_count(words) + k + words[i + STARTS_AT] - words[i + 1 + STARTS_AT]
}
