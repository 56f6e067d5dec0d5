// What a position of a matrix holds, and where its entry stands. The definitions of plain grids are in specs/; nothing
// here knows how a matrix is written.

#![tactic(auto)]

ghost use Rattle.std.specs.Prelude.{◌≡◌};
ghost use Rattle.grid.specs.Position.{position_of};

// Document 01: "in each cell, a value or none". A value is kept as its word in two's complement.
pub type Cell = Option<u32>;

// A cell with a position (document 02, A11): "the entry's position among the N, counted from 0, or, for an absent cell,
// the position where it would be put to keep the order".
#[derive(Clone, Copy, Debug, PartialEq, Eq)]
pub enum EntryAt {
    Absent { position: u32 },
    Present { value: u32, position: u32 },
}

// The position, present or absent alike.
pub fn position_of(entry: EntryAt) -> u32
    ensures { result ≡ position_of entry }
{
    match entry {
        EntryAt::Absent { position } => position,
        EntryAt::Present { value: _, position } => position,
    }
}
