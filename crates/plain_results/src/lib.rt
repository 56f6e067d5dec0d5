// T as a whole, for the calls whose final C is T: its rows one after another, then its words at the front of the
// workspace.

#![tactic(auto)]

ghost use Rattle.std.specs.Prelude.{◌≡◌, true, ◌≤◌, length, Ok};
ghost use Rattle.limits.specs.Limits.{max_rows, max_entries};
ghost use Rattle.matrix.specs.Layout.{rows, row_columns, grid_of, workspace_words};
ghost use Rattle.operations.specs.GridOperations.{result_grid};
ghost use Rattle.matrix.specs.Facts.{Header, RowSpan, Matrix};
ghost use Rattle.result_rows.specs.RowInputs.{RowInputs};
ghost use Rattle.apply_rows.specs.Values.{by_value};
ghost use Rattle.plain_results.specs.Applied.{applied_grid};
ghost use Rattle.plain_results.specs.Rows.{Inputs, EmptyRow, Space, Skipped, AllRows, Written};

use answers::Refusal;
use limits::{MAX_ENTRIES, MAX_ROWS, ROW_PLACES};
use matrix::layout::{COLUMNS_PAST, COUNT_AGAIN_PAST, STARTS_AT, VALUES_PAST};
use operations::Operation;
use operators::ApplyOp;
use products::Engine;

// The places of a buffer for all rows: as many as a matrix may have entries, and one row more.
const RESULT_PLACES: usize = MAX_ENTRIES as usize + ROW_PLACES;

const START_PLACES: usize = MAX_ROWS as usize;

// T at the front of the workspace. The number of entries, or the refusal of too many.
pub fn write_result(
    operation: Operation,
    a: &[u32],
    b: &[u32],
    c: &[u32],
    is: &[u32],
    js: &[u32],
    work: &mut [u32],
    engine: Engine,
) -> Result<usize, Refusal>
    requires inputs { Inputs operation a.now b.now c.now is.now js.now }
    requires space { workspace_words ≤ length work.old }
    ensures { Written (result_grid operation (grid_of a.now) (grid_of b.now)
        (grid_of c.now) is.now js.now) result work.new }
{
    match operation {
        Operation::Apply(op) if apply_rows::by_value(op) => Ok(write_applied(op, a, work)),
        _ => write_rows(operation, a, b, c, is, js, work, engine),
    }
}

// T of apply by an operator that looks at the value alone: row starts and column numbers are those of A.
fn write_applied(op: ApplyOp, a: &[u32], work: &mut [u32]) -> usize
    requires input { Matrix a.now }
    requires by_value { by_value op ≡ true }
    requires space { workspace_words ≤ length work.old }
    ensures { Written (applied_grid op (grid_of a.now)) (Ok result) work.new }
{
    let rows = matrix::row_count(a) as usize;
    let n = matrix::entry_count(a) as usize;
    let cols = matrix::col_count(a);
    words::copy_into(work, STARTS_AT, &a[STARTS_AT..rows + n + COUNT_AGAIN_PAST]);
    let from = rows + n + VALUES_PAST;
    apply_rows::apply_values(op, work, from, &a[from..from + n]);
    matrix::write_header(work, rows as u32, cols, n as u32);
    n
}

// T row by row: its column numbers are written where they stay, the starts of its rows and its values
// are joined to them at the end. The number of entries, or the refusal of too many. Not inlined, so that its buffers
// stand on the stack only meanwhile.
#[inline(never)]
fn write_rows(
    operation: Operation,
    a: &[u32],
    b: &[u32],
    c: &[u32],
    is: &[u32],
    js: &[u32],
    work: &mut [u32],
    engine: Engine,
) -> Result<usize, Refusal>
    requires inputs { Inputs operation a.now b.now c.now is.now js.now }
    requires space { workspace_words ≤ length work.old }
    ensures { Written (result_grid operation (grid_of a.now) (grid_of b.now)
        (grid_of c.now) is.now js.now) result work.new }
{
    let mut starts = [0u32; START_PLACES];
    let mut ov = [0u32; RESULT_PLACES];
    let total = matrix::row_count(c) as usize;
    let n = all_rows(
        operation,
        a,
        b,
        c,
        is,
        js,
        &mut starts,
        &mut work[total + COLUMNS_PAST..],
        &mut ov,
        engine,
    )?;
    let cols = matrix::col_count(c) as usize;
    results::join(work, total, cols, &starts[..total], &ov[..n]);
    Ok(n)
}

// The rows of T: where each begins in `starts`, and their column numbers and values in `oc` and `ov`. The number of
// entries, or the refusal of too many.
fn all_rows(
    operation: Operation,
    a: &[u32],
    b: &[u32],
    c: &[u32],
    is: &[u32],
    js: &[u32],
    starts: &mut [u32],
    oc: &mut [u32],
    ov: &mut [u32],
    engine: Engine,
) -> Result<usize, Refusal>
    requires inputs { Inputs operation a.now b.now c.now is.now js.now }
    requires space { Space starts.old oc.old ov.old }
    ensures { AllRows (result_grid operation (grid_of a.now) (grid_of b.now)
        (grid_of c.now) is.now js.now)
        result starts.new oc.new ov.new }
{
    let total = matrix::row_count(c) as usize;
    let mut n: usize = 0;
    let mut i = skip_rows(operation, a, b, c, is, js, starts, 0, 0);
    // Kept: a turn goes on at the row that `skip_rows` has come to.
    while i < total {
        starts[i] = n as u32;
        n += result_rows::result_row(
            engine,
            operation,
            a,
            b,
            c,
            is,
            js,
            i,
            &mut oc[n..],
            &mut ov[n..],
        );
        if (MAX_ENTRIES as usize) < n {
            return Err(Refusal::TooManyEntries);
        }
        i = skip_rows(operation, a, b, c, is, js, starts, i + 1, n);
    }
    Ok(n)
}

// Writes the starts of the rows from `from` on that are known to be empty, after n entries: the first row that is not.
fn skip_rows(
    operation: Operation,
    a: &[u32],
    b: &[u32],
    c: &[u32],
    is: &[u32],
    js: &[u32],
    starts: &mut [u32],
    from: usize,
    n: usize,
) -> usize
    requires inputs { Inputs operation a.now b.now c.now is.now js.now }
    requires within { from ≤ rows c.now }
    requires few { n ≤ max_entries }
    requires places { max_rows ≤ length starts.old }
    ensures { Skipped (result_grid operation (grid_of a.now) (grid_of b.now)
        (grid_of c.now) is.now js.now)
        (rows c.now) from n starts.old result starts.new }
{
    let total = matrix::row_count(c) as usize;
    for i in from..total {
        if !is_empty(operation, a, b, c, is, js, i) {
            return i;
        }
        starts[i] = n as u32;
    }
    total
}

// Whether the row starts alone tell that row i of T has no entries.
fn is_empty(
    operation: Operation,
    a: &[u32],
    b: &[u32],
    c: &[u32],
    is: &[u32],
    js: &[u32],
    i: usize,
) -> bool
    requires { RowInputs operation a.now b.now c.now is.now js.now i }
    ensures { result ≡ true → EmptyRow (result_grid operation (grid_of a.now) (grid_of b.now)
        (grid_of c.now) is.now js.now) i }
{
    match operation {
        Operation::Mxm(_, _) => has_none(a, i),
        Operation::EwiseMult(_) => has_none(a, i),
        Operation::EwiseAdd(_) => has_none(a, i) && has_none(b, i),
        Operation::Apply(_) => has_none(a, i),
        Operation::Select(_) => has_none(a, i),
        _ => false,
    }
}

// Whether row i of a matrix has no entries.
fn has_none(words: &[u32], i: usize) -> bool
    requires header { Header words.now }
    requires span { RowSpan words.now i }
    ensures { result ≡ true → length (row_columns words.now i) ≡ 0 }
{
    matrix::row_columns(words, i).is_empty()
}
