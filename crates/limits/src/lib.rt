// The limits of a matrix, an index list, the flags and a store (document 01: a sheet, a shelf). specs/Limits.antt states
// the same numbers. Document 02, A6: rows, columns and index lists from 512 to 1,000.

#![tactic(auto)]

// Rows R and columns C are 1 to these.
pub const MAX_ROWS: u32 = 1000;

pub const MAX_COLS: u32 = 1000;

// The number of entries N is 0 to this.
pub const MAX_ENTRIES: u32 = 2048;

// An index list has 1 to this many indexes.
pub const MAX_LIST: usize = 1000;

// The places of a row, as the length of the local arrays that hold one.
pub const ROW_PLACES: usize = MAX_COLS as usize;

// The flags add up to at most this.
pub const MAX_FLAGS: u32 = 31;

// A store has this many slots, and at least one word for each: its count.
pub const SLOTS: usize = 8;

// The words of a store are at most this many.
pub const MAX_STORE_WORDS: usize = 16384;

// A revision is 0 to this, and after this comes 0.
pub const MAX_REVISION: u32 = 4294967295;

// An allowance of rounds is 0 to this.
pub const MAX_ALLOWANCE: u32 = 1000;

// The stack of a formula over a store has at least this many words.
pub const MIN_STACK_WORDS: usize = 65000;
