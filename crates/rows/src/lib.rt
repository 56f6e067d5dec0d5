// A sparse row: column numbers that rise strictly, each beside its value. A search counts the column numbers that it looks
// at.

#![tactic(auto)]

ghost use Rattle.std.specs.Prelude.{◌≡◌, ◌+◌, ◌≤◌, ◌<◌, length};
ghost use Rattle.limits.specs.Limits.{max_entries};
ghost use Rattle.words.specs.Words.{at};
ghost use Rattle.grid.specs.Position.{entry_of};
ghost use Rattle.rows.specs.Row.{Rises, position, lookup};
ghost use Rattle.rows.specs.Place.{column_at, Inside, cell_beside, Among, entry_beside};
ghost use Rattle.rows.specs.Looks.{position_looks, look_there, looks_for};

use grid::{Cell, EntryAt};

// The place of a column in a row, as a binary search gives it: its position, or as Err where it would be put to keep
// the order; and how many column numbers were looked at to find it.
#[derive(Clone, Copy, Debug, PartialEq, Eq)]
pub struct FoundColumn {
    pub place: Result<usize, usize>,
    pub looks: usize,
}

// The entry of a cell, and how many column numbers were looked at to find it.
#[derive(Clone, Copy, Debug, PartialEq, Eq)]
pub struct FoundEntry {
    pub entry: EntryAt,
    pub looks: usize,
}

// A position, and how many column numbers were looked at to find it.
#[derive(Clone, Copy, Debug, PartialEq, Eq)]
struct Bound {
    position: usize,
    looks: usize,
}

// A column number, and how many were looked at, this one included.
#[derive(Clone, Copy, Debug, PartialEq, Eq)]
struct Seen {
    column: u32,
    looks: usize,
}

// The entry of column j of a valid row, before which the matrix has `start` entries.
pub fn find_entry(columns: &[u32], values: &[u32], start: u32, j: u32) -> FoundEntry
    requires rises_1 { Rises columns.now }
    requires rises_2 { length values.now ≡ length columns.now }
    requires columns_bound { start + length columns.now ≤ max_entries }
    ensures fact_1 { result.entry ≡ entry_of (lookup columns.now values.now j)
        (start + position j columns.now) }
    ensures fact_2 { result.looks ≡ looks_for j columns.now }
{
    let found = find_column(columns, j);
    FoundEntry {
        entry: entry_beside(values, start, found.place),
        looks: found.looks,
    }
}

// The cell at column j of a valid row, whose position is p.
pub fn cell_at(columns: &[u32], values: &[u32], p: usize, j: u32) -> Cell
    requires rises_1 { Rises columns.now }
    requires rises_2 { length values.now ≡ length columns.now }
    requires p_value { p ≡ position j columns.now }
    ensures { result ≡ lookup columns.now values.now j }
{
    let found = look_at(columns, p, j, 0);
    cell_beside(values, found.place)
}

// The place of column j: its position by halving, and one look more there.
pub fn find_column(columns: &[u32], j: u32) -> FoundColumn
    requires { Rises columns.now }
    ensures found { result.place ≡ column_at j columns.now }
    ensures counted { result.looks ≡ looks_for j columns.now }
{
    let bound = lower_bound(columns, j);
    look_at(columns, bound.position, j, bound.looks)
}

// How many column numbers are below j, by halving the range.
fn lower_bound(columns: &[u32], j: u32) -> Bound
    requires { Rises columns.now }
    ensures found { result.position ≡ position j columns.now }
    ensures counted { result.looks ≡ position_looks j columns.now }
{
    let mut low = 0;
    let mut high = columns.len();
    let mut looks = 0;
    while low < high {
        let mid = low + (high - low) / 2;
        let seen = look(columns, mid, looks);
        looks = seen.looks;
        if seen.column < j {
            low = mid + 1;
        } else {
            high = mid;
        }
    }
    Bound {
        position: low,
        looks,
    }
}

// The place of column j, whose position is p: a look there, after `looks` others, tells whether it is present.
fn look_at(columns: &[u32], p: usize, j: u32, looks: usize) -> FoundColumn
    requires rises { Rises columns.now }
    requires at_position { p ≡ position j columns.now }
    requires few { looks ≤ length columns.now }
    ensures found { result.place ≡ column_at j columns.now }
    ensures counted { result.looks ≡ looks + look_there p (length columns.now) }
{
    if columns.len() <= p {
        return FoundColumn {
            place: Err(p),
            looks,
        };
    }
    let seen = look(columns, p, looks);
    let place = if seen.column == j { Ok(p) } else { Err(p) };
    FoundColumn {
        place,
        looks: seen.looks,
    }
}

// One look at a column number, and the count with it: no other line of a search reads a column number.
fn look(columns: &[u32], k: usize, looks: usize) -> Seen
    requires { (k < length columns.now) × (looks ≤ length columns.now) }
    ensures { (result.column ≡ at columns.now k) × (result.looks ≡ looks + 1) }
{
    Seen {
        column: columns[k],
        looks: looks + 1,
    }
}

// The cell at the place of a column: the value beside it, or none.
fn cell_beside(values: &[u32], place: Result<usize, usize>) -> Cell
    requires { Inside place (length values.now) }
    ensures { result ≡ cell_beside values.now place }
{
    match place {
        Ok(p) => Some(values[p]),
        Err(_) => None,
    }
}

// The entry at the place of a column, before whose row the matrix has `start` entries.
fn entry_beside(values: &[u32], start: u32, place: Result<usize, usize>) -> EntryAt
    requires among { Among place (length values.now) }
    requires few { start + length values.now ≤ max_entries }
    ensures { result ≡ entry_beside values.now start place }
{
    match place {
        Ok(p) => EntryAt::Present {
            value: values[p],
            position: start + p as u32,
        },
        Err(q) => EntryAt::Absent {
            position: start + q as u32,
        },
    }
}
