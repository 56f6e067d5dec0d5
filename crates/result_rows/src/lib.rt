// A row of T for any of the operations. The inputs are valid matrices, as their transpose flags ask; so is the old C.
// Where there are lists and no second input, the inverses of both lists stand in its place.

#![tactic(auto)]

ghost use Rattle.std.specs.Prelude.{◌≡◌, ◌*◌, ◌/◌, ◌%◌, ◌≤◌, ◌<◌, length};
ghost use Rattle.words.specs.Words.{at};
ghost use Rattle.rows.specs.Row.{Holds};
ghost use Rattle.matrix.specs.Layout.{rows, cols, cell_of, grid_of};
ghost use Rattle.matrix.specs.Facts.{Matrix};
ghost use Rattle.operations.specs.CellOperations.{intersect, dot, apply_cell, select_cell};
ghost use Rattle.operations.specs.CellOperations.{assigned_cell, unlisted_cell};
ghost use Rattle.operations.specs.GridOperations.{result_grid};
ghost use Rattle.merge.specs.Combined.{combined};
ghost use Rattle.result_rows.specs.RowInputs.{RowInputs, Buffers, ProductInputs, PairInputs, ListInputs, no_cell};
ghost use Rattle.result_rows.specs.RowInputs.{AssignInputs, BlockInputs};

use limits::ROW_PLACES;
use merge::Combine;
use operations::{Accumulator, Operation};
use operators::{ApplyOp, BinaryOp, Monoid};
use products::Engine;
use select_ops::SelectOp;

// Row i of T, left at the front of `oc` and `ov`: its number of entries. The engine is the product's.
pub fn result_row(
    engine: Engine,
    operation: Operation,
    a: &[u32],
    b: &[u32],
    c: &[u32],
    is: &[u32],
    js: &[u32],
    i: usize,
    oc: &mut [u32],
    ov: &mut [u32],
) -> usize
    requires row_inputs { RowInputs operation a.now b.now c.now is.now js.now i }
    requires buffers { Buffers (result_grid operation (grid_of a.now) (grid_of b.now) (grid_of c.now) is.now js.now)
        oc.old ov.old }
    ensures { Holds (result_grid operation (grid_of a.now) (grid_of b.now)
        (grid_of c.now) is.now js.now).cols
        ((result_grid operation (grid_of a.now) (grid_of b.now)
        (grid_of c.now) is.now js.now).cell i)
        result oc.new ov.new }
{
    match operation {
        Operation::Mxm(monoid, op) => product(engine, monoid, op, a, b, i, oc, ov),
        Operation::EwiseMult(op) => pair(Combine::Intersect(op), a, b, i, oc, ov),
        Operation::EwiseAdd(op) => pair(Combine::Unite(op), a, b, i, oc, ov),
        Operation::Apply(op) => applied(op, a, i, oc, ov),
        Operation::Extract => extracted(a, b, is, js, i, oc, ov),
        Operation::Select(op) => selected(op, a, i, oc, ov),
        Operation::ReduceRows(monoid) => reduce_rows::reduce_rows(monoid, a, oc, ov),
        Operation::Assign(accumulator) => assigned(accumulator, a, b, c, is, js, i, oc, ov),
        Operation::Kronecker(op) => blocks(op, a, b, i, oc, ov),
    }
}

// The product's row.
fn product(
    engine: Engine,
    monoid: Monoid,
    op: BinaryOp,
    a: &[u32],
    b: &[u32],
    i: usize,
    oc: &mut [u32],
    ov: &mut [u32],
) -> usize
    requires product_inputs { ProductInputs a.now b.now i }
    requires b_in_bounds { (cols b.now ≤ length oc.old) × (cols b.now ≤ length ov.old) }
    ensures { Holds (cols b.now)
        (λ j. dot monoid op (cols a.now) (cell_of a.now i) (λ k. cell_of b.now k j))
        result oc.new ov.new }
{
    products::product_row_by(
        engine,
        monoid,
        op,
        matrix::row_columns(a, i),
        matrix::row_values(a, i),
        b,
        oc,
        ov,
    )
}

// A row of the intersection or the union.
fn pair(how: Combine, a: &[u32], b: &[u32], i: usize, oc: &mut [u32], ov: &mut [u32]) -> usize
    requires pair_inputs { PairInputs a.now b.now i }
    requires a_in_bounds { (cols a.now ≤ length oc.old) × (cols a.now ≤ length ov.old) }
    ensures { Holds (cols a.now)
        (λ j. combined how no_cell (cell_of a.now i j) (cell_of b.now i j))
        result oc.new ov.new }
{
    merge::merge_row(
        how,
        matrix::col_count(a),
        &a[0..0],
        &a[0..0],
        matrix::row_columns(a, i),
        matrix::row_values(a, i),
        matrix::row_columns(b, i),
        matrix::row_values(b, i),
        oc,
        ov,
    )
}

// A row of apply.
fn applied(op: ApplyOp, a: &[u32], i: usize, oc: &mut [u32], ov: &mut [u32]) -> usize
    requires matrix { Matrix a.now }
    requires row_in { i < rows a.now }
    requires a_in_bounds { (cols a.now ≤ length oc.old) × (cols a.now ≤ length ov.old) }
    ensures { Holds (cols a.now)
        (λ j. apply_cell op i j (cell_of a.now i j))
        result oc.new ov.new }
{
    apply_rows::apply_row(
        matrix::col_count(a) as usize,
        op,
        i as u32,
        matrix::row_columns(a, i),
        matrix::row_values(a, i),
        oc,
        ov,
    )
}

// A row of extract, where b has the inverse of js first.
fn extracted(
    a: &[u32],
    b: &[u32],
    is: &[u32],
    js: &[u32],
    i: usize,
    oc: &mut [u32],
    ov: &mut [u32],
) -> usize
    requires list_inputs { ListInputs a.now b.now is.now js.now i }
    requires js_in_bounds { (length js.now ≤ length oc.old) × (length js.now ≤ length ov.old) }
    ensures { Holds (length js.now)
        (λ j. cell_of a.now (at is.now i) (at js.now j))
        result oc.new ov.new }
{
    let row = is[i] as usize;
    extract_rows::extract_row(
        matrix::row_columns(a, row),
        matrix::row_values(a, row),
        js,
        &b[..ROW_PLACES],
        oc,
        ov,
    )
}

// A row of select.
fn selected(op: SelectOp, a: &[u32], i: usize, oc: &mut [u32], ov: &mut [u32]) -> usize
    requires matrix { Matrix a.now }
    requires row_in { i < rows a.now }
    requires a_in_bounds { (cols a.now ≤ length oc.old) × (cols a.now ≤ length ov.old) }
    ensures { Holds (cols a.now)
        (λ j. select_cell op i j (cell_of a.now i j))
        result oc.new ov.new }
{
    select_rows::select_row(
        matrix::col_count(a) as usize,
        op,
        i as u32,
        matrix::row_columns(a, i),
        matrix::row_values(a, i),
        oc,
        ov,
    )
}

// A row of assign, where b has the inverse of js, then that of is: the latter tells which row of A comes here, if any.
fn assigned(
    accumulator: Accumulator,
    a: &[u32],
    b: &[u32],
    c: &[u32],
    is: &[u32],
    js: &[u32],
    i: usize,
    oc: &mut [u32],
    ov: &mut [u32],
) -> usize
    requires assign_inputs { AssignInputs a.now b.now c.now is.now js.now i }
    requires c_in_bounds { (cols c.now ≤ length oc.old) × (cols c.now ≤ length ov.old) }
    ensures { Holds (cols c.now)
        (λ j. assigned_cell is.now js.now (cell_of a.now)
        (unlisted_cell accumulator (cell_of c.now i j)) i j)
        result oc.new ov.new }
{
    let place = b[ROW_PLACES + i];
    if place == 0 {
        return assign_rows::unlisted_row(
            accumulator,
            matrix::col_count(c),
            matrix::row_columns(c, i),
            matrix::row_values(c, i),
            oc,
            ov,
        );
    }
    let row = place as usize - 1;
    assign_rows::assign_row(
        accumulator,
        matrix::col_count(c),
        matrix::row_columns(a, row),
        matrix::row_values(a, row),
        matrix::row_columns(c, i),
        matrix::row_values(c, i),
        js,
        &b[..ROW_PLACES],
        oc,
        ov,
    )
}

// A row of the Kronecker product.
fn blocks(op: BinaryOp, a: &[u32], b: &[u32], i: usize, oc: &mut [u32], ov: &mut [u32]) -> usize
    requires block_inputs { BlockInputs a.now b.now i }
    requires b_in_bounds { (cols a.now * cols b.now ≤ length oc.old) × (cols a.now * cols b.now ≤ length ov.old) }
    ensures { Holds (cols a.now * cols b.now)
        (λ j. intersect op (cell_of a.now (i / rows b.now) (j / cols b.now))
        (cell_of b.now (i % rows b.now) (j % cols b.now)))
        result oc.new ov.new }
{
    let height = matrix::row_count(b) as usize;
    let row = i / height;
    let inner = i % height;
    kronecker_rows::kronecker_row(
        op,
        matrix::col_count(a),
        matrix::col_count(b),
        matrix::row_columns(a, row),
        matrix::row_values(a, row),
        matrix::row_columns(b, inner),
        matrix::row_values(b, inner),
        oc,
        ov,
    )
}
