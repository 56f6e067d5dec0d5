// Where the words of a matrix stand (document 01, "How a sheet is written"; document 02, A12), R the rows and N the
// entries: 1 and the revision; 2, R, C; R + 1 and the row starts; N and the column numbers; N and the values.

use limits::{MAX_ENTRIES, MAX_ROWS};

pub const REVISION_COUNT_AT: usize = 0;

pub const REVISION_AT: usize = REVISION_COUNT_AT + 1;

pub const SHAPE_COUNT_AT: usize = REVISION_COUNT_AT + 2;

pub const ROWS_AT: usize = SHAPE_COUNT_AT + 1;

pub const COLS_AT: usize = SHAPE_COUNT_AT + 2;

pub const START_COUNT_AT: usize = SHAPE_COUNT_AT + 3;

pub const STARTS_AT: usize = START_COUNT_AT + 1;

// N before the column numbers is at R + COUNT_PAST, the column numbers are from R + COLUMNS_PAST on, N before the
// values is at R + N + COUNT_AGAIN_PAST, and the values are from R + N + VALUES_PAST on.
pub const COUNT_PAST: usize = STARTS_AT + 1;

pub const COLUMNS_PAST: usize = STARTS_AT + 2;

pub const COUNT_AGAIN_PAST: usize = STARTS_AT + 2;

pub const VALUES_PAST: usize = STARTS_AT + 3;

// The size is R + 2N + FIXED_WORDS.
pub const FIXED_WORDS: usize = STARTS_AT + 3;

// The words of the largest matrix, and of the workspace that an operation needs: three such matrices.
pub const MAX_MATRIX_WORDS: usize = MAX_ROWS as usize + 2 * MAX_ENTRIES as usize + FIXED_WORDS;

pub const WORKSPACE_WORDS: usize = 3 * MAX_MATRIX_WORDS;
