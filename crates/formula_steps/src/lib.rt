// One step of a formula: a product or a union of two matrices that stand in one lent area, the first at its front and
// the second one region of the largest matrix further on. T is put together in the third region, row by row, and then
// moved to the front. Nothing is lent by & and by &mut at once: each row is worked out before it is written.

#![tactic(auto)]

ghost use Rattle.std.specs.Prelude.{◌≡◌, [], ◌≤◌, ◌<◌, length};
ghost use Rattle.answers.specs.Results.{code_of};
ghost use Rattle.rows.specs.Row.{Holds};
ghost use Rattle.result_rows.specs.RowInputs.{RowInputs, Buffers};
ghost use Rattle.operations.specs.GridOperations.{shape_of};
ghost use Rattle.operations.specs.Calls.{inputs_agree};
ghost use Rattle.matrix.specs.Layout.{grid_of};
ghost use Rattle.matrix.specs.Facts.{Matrix};
ghost use Rattle.formula_steps.specs.Steps.{left_words, right_words, Operands, Agreeing, Staging, Advanced};
ghost use Rattle.formula_steps.specs.Steps.{result_at, area_grid, Gathered, Stepped};

use answers::Refusal;
use limits::{MAX_ENTRIES, ROW_PLACES};
use matrix::layout::{FIXED_WORDS, MAX_MATRIX_WORDS};
use operations::{Needs, Operation, Shape, Shapes};
use products::Engine;

// Where the second operand stands, and where T is put together.
pub const SECOND_AT: usize = MAX_MATRIX_WORDS;

const RESULT_AT: usize = 2 * MAX_MATRIX_WORDS;

// T at the front of the area; or the step's refusal, 8 or 10.
pub fn step(operation: Operation, area: &mut [u32]) -> Result<(), Refusal>
    requires { Operands operation area.old }
    ensures { Stepped operation area.old (code_of result) area.new }
{
    let first = shape_of(&area[..SECOND_AT]);
    let second = shape_of(&area[SECOND_AT..RESULT_AT]);
    let shapes = Shapes {
        first,
        second,
        output: first,
        lists: Shape { rows: 0, cols: 0 },
    };
    let needs = operations::needs_of(operation, shapes);
    if !inputs_agree(shapes, needs) {
        return Err(Refusal::InvalidShape);
    }
    write_result(operation, needs.result, area)
}

// T of operands that agree, whose shape is `res`.
fn write_result(operation: Operation, res: Shape, area: &mut [u32]) -> Result<(), Refusal>
    requires { Agreeing operation res area.old }
    ensures { Stepped operation area.old (code_of result) area.new }
{
    let mut tc = [0u32; ROW_PLACES];
    let mut tv = [0u32; ROW_PLACES];
    let n = all_rows(operation, res.rows, area, &mut tc, &mut tv);
    if (MAX_ENTRIES as usize) < n {
        return Err(Refusal::TooManyEntries);
    }
    results::finish(&mut area[RESULT_AT..], res.rows, res.cols, n);
    words::move_down(area, RESULT_AT, 0, res.rows + n + n + FIXED_WORDS);
    Ok(())
}

// All rows of T, staged in the third region. The number of entries; where it is too large, that of the rows so far.
fn all_rows(
    operation: Operation,
    rows: usize,
    area: &mut [u32],
    tc: &mut [u32],
    tv: &mut [u32],
) -> usize
    requires { Staging operation (left_words area.old) (right_words area.old) rows 0 0 area.old tc.old
        tv.old }
    ensures { Gathered operation (left_words area.old) (right_words area.old) result
        area.new }
{
    let mut n = 0;
    for i in 0..rows {
        n = advance(operation, rows, i, n, area, tc, tv);
        if (MAX_ENTRIES as usize) < n {
            return n;
        }
    }
    n
}

// Row i of T, after n entries: it is staged, unless there are then too many entries. The number of entries so far.
fn advance(
    operation: Operation,
    rows: usize,
    i: usize,
    n: usize,
    area: &mut [u32],
    tc: &mut [u32],
    tv: &mut [u32],
) -> usize
    requires staging { Staging operation (left_words area.old) (right_words area.old) rows i n area.old tc.old
        tv.old }
    requires row { i < rows }
    ensures { Advanced operation (left_words area.old) (right_words area.old) rows i result
        area.new tc.new tv.new }
{
    let m = row_of(operation, area, i, tc, tv);
    let next = n + m;
    if (MAX_ENTRIES as usize) < next {
        return next;
    }
    results::stage_row(&mut area[RESULT_AT..], rows, i, n, &tc[..m], &tv[..m]);
    next
}

// Row i of T, left at the front of `tc` and `tv`: its number of entries.
fn row_of(operation: Operation, area: &[u32], i: usize, tc: &mut [u32], tv: &mut [u32]) -> usize
    requires row_inputs { RowInputs operation (left_words area.now) (right_words area.now) (left_words area.now) [] [] i }
    requires buffers { Buffers (area_grid operation area.now) tc.old tv.old }
    requires space { result_at ≤ length area.now }
    ensures { Holds (area_grid operation area.now).cols
        ((area_grid operation area.now).cell i) result tc.new tv.new }
{
    result_rows::result_row(
        Engine::ByEntries,
        operation,
        &area[..SECOND_AT],
        &area[SECOND_AT..RESULT_AT],
        &area[..SECOND_AT],
        &area[0..0],
        &area[0..0],
        i,
        tc,
        tv,
    )
}

// The shape of a valid matrix.
fn shape_of(words: &[u32]) -> Shape
    requires { Matrix words.now }
    ensures { result ≡ shape_of (grid_of words.now) }
{
    Shape {
        rows: matrix::row_count(words) as usize,
        cols: matrix::col_count(words) as usize,
    }
}

// Whether the operands have the shapes that the operation asks for.
fn inputs_agree(shapes: Shapes, needs: Needs) -> bool
    ensures { result ≡ inputs_agree shapes needs }
{
    shapes.first == needs.first && shapes.second == needs.second
}
