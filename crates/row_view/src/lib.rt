// Looking at one row over two matrices of equal shape (document 01: "look at one row over two sheets"). The part shown
// lies in the first matrix where that row has an entry, otherwise in the second. This call gives no number: where
// either matrix is damaged, the shapes differ or the row does not exist, the part is empty.

#![tactic(auto)]

ghost use Rattle.std.specs.Prelude.{◌≡◌};
ghost use Rattle.matrix.specs.Facts.{Header, RowSpan};
ghost use Rattle.words.specs.Lent.{PartOf};
ghost use Rattle.row_view.specs.View.{viewable, section_from, section_to, row_view, Shown, place_of, place_in};

use matrix::layout::{COLS_AT, COLUMNS_PAST, COUNT_PAST, ROWS_AT, STARTS_AT, VALUES_PAST};

// "column numbers or values as asked"
#[derive(Clone, Copy, Debug, PartialEq, Eq)]
pub enum Section {
    Columns,
    Values,
}

// The part of row i that is shown.
pub fn row_view<'a>(first: &'a [u32], second: &'a [u32], i: u32, section: Section) -> &'a [u32]
    ensures { Shown result first.entry second.entry (row_view section first.now
        second.now i) }
{
    if !row_viewable(first, second, i) {
        return &first[0..0];
    }
    let row = i as usize;
    if matrix::row_columns(first, row).is_empty() {
        row_section(second, row, section)
    } else {
        row_section(first, row, section)
    }
}

// Where a part lies, for a host that cannot take a part of its own words back: in the first matrix or in the second,
// from which word on, and how many words.
#[derive(Clone, Copy, Debug, PartialEq, Eq)]
pub struct Place {
    pub in_second: bool,
    pub from: usize,
    pub count: usize,
}

// Where the part lies that `row_view` shows.
pub fn place_shown(first: &[u32], second: &[u32], i: u32, section: Section) -> Place
    ensures { result ≡ place_of (row_view section first.now second.now i) }
{
    if !row_viewable(first, second, i) {
        return Place {
            in_second: false,
            from: 0,
            count: 0,
        };
    }
    let row = i as usize;
    if matrix::row_columns(first, row).is_empty() {
        section_place(second, row, section, true)
    } else {
        section_place(first, row, section, false)
    }
}

// Where the section asked of row i of a valid matrix lies.
pub fn section_place(words: &[u32], i: usize, section: Section, in_second: bool) -> Place
    requires fact_1 { Header words.now }
    requires fact_2 { RowSpan words.now i }
    ensures { result ≡ place_in in_second (section_from section words.now i)
        (section_to section words.now i) }
{
    Place {
        in_second,
        from: section_from(words, i, section),
        count: matrix::row_columns(words, i).len(),
    }
}

// The word from which on the section asked of row i stands.
fn section_from(words: &[u32], i: usize, section: Section) -> usize
    requires fact_1 { Header words.now }
    requires fact_2 { RowSpan words.now i }
    ensures { result ≡ section_from section words.now i }
{
    let r = words[ROWS_AT] as usize;
    let start = words[i + STARTS_AT] as usize;
    match section {
        Section::Columns => r + COLUMNS_PAST + start,
        Section::Values => r + words[r + COUNT_PAST] as usize + VALUES_PAST + start,
    }
}

// Whether both matrices are valid and of one shape that has row i.
fn row_viewable(first: &[u32], second: &[u32], i: u32) -> bool
    ensures { result ≡ viewable first.now second.now i }
{
    if !matrix::is_valid(first) || !matrix::is_valid(second) {
        return false;
    }
    if first[ROWS_AT] != second[ROWS_AT] || first[COLS_AT] != second[COLS_AT] {
        return false;
    }
    i < first[ROWS_AT]
}

// The section asked of row i of a valid matrix.
pub fn row_section(words: &[u32], i: usize, section: Section) -> &[u32]
    requires fact_1 { Header words.now }
    requires fact_2 { RowSpan words.now i }
    ensures { PartOf result words.entry (section_from section words.now i)
        (section_to section words.now i) }
{
    match section {
        Section::Columns => matrix::row_columns(words, i),
        Section::Values => matrix::row_values(words, i),
    }
}
