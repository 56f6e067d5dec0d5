// The result of an operation, put together in the workspace: row by row its columns and values are staged, and at the
// end the words of the matrix stand at the front. Or its column numbers are written where they
// stay, and the other sections joined to them.

#![tactic(auto)]

ghost use Rattle.std.specs.Prelude.{◌≡◌};
ghost use Rattle.results.specs.Staging.{RowBounds, ResultBounds, staged_row, finished};
ghost use Rattle.results.specs.Joining.{SectionBounds, joined};

use limits::MAX_ENTRIES;
use matrix::layout::{COLUMNS_PAST, MAX_MATRIX_WORDS, STARTS_AT, VALUES_PAST};

// Where the values are staged: behind the largest column section.
pub const STAGED_VALUES_AT: usize = MAX_MATRIX_WORDS - MAX_ENTRIES as usize;

// Row i of a result of `rows` rows, after n entries: its start, its column numbers and its values.
pub fn stage_row(work: &mut [u32], rows: usize, i: usize, n: usize, columns: &[u32], values: &[u32])
    requires { RowBounds rows i n columns.now values.now work.old }
    ensures { work.new ≡ staged_row rows i n columns.now values.now
        work.old }
{
    work[i + STARTS_AT] = n as u32;
    words::copy_into(work, rows + COLUMNS_PAST + n, columns);
    words::copy_into(work, STAGED_VALUES_AT + n, values);
}

// The words of a result whose rows are all staged: the values are moved to their place, and the last start and the
// header are written.
pub fn finish(work: &mut [u32], rows: usize, cols: usize, n: usize)
    requires { ResultBounds rows cols n work.old }
    ensures { work.new ≡ finished rows cols n work.old }
{
    words::move_down(work, STAGED_VALUES_AT, rows + n + VALUES_PAST, n);
    work[rows + STARTS_AT] = n as u32;
    matrix::write_header(work, rows as u32, cols as u32, n as u32);
}

// The words of a result whose column numbers are in their place, from the starts of its rows and its values. The last
// start and the header are written too.
pub fn join(work: &mut [u32], rows: usize, cols: usize, starts: &[u32], values: &[u32])
    requires { SectionBounds rows cols starts.now values.now work.old }
    ensures { work.new ≡ joined rows cols starts.now values.now work.old }
{
    let count = values.len();
    words::copy_into(work, STARTS_AT, starts);
    words::copy_into(work, rows + count + VALUES_PAST, values);
    work[rows + STARTS_AT] = count as u32;
    matrix::write_header(work, rows as u32, cols as u32, count as u32);
}
