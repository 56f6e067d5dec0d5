// One row of the product: "over all k where A(i,k) and B(k,j) are both present, multiply, then add up with the monoid".
// The rows of the second input that the entries of the row name are added up in rising order of k: in a dense row, that
// is gone through by its places, or by entries (`by_entries`).

#![tactic(auto)]

use limits::ROW_PLACES;
use matrix::layout::COLS_AT;
use operators::{BinaryOp, Monoid};

pub mod by_entries;

ghost use Rattle.std.specs.Prelude.{◌≡◌, ◌≤◌, length, None, Some};
ghost use Rattle.limits.specs.Limits.{max_cols};
ghost use Rattle.operators.specs.Operators.{monoid_op};
ghost use Rattle.operations.specs.CellOperations.{unite};
ghost use Rattle.rows.specs.Row.{lookup, Row, Holds};
ghost use Rattle.matrix.specs.Layout.{rows, cols, row_columns, row_values, cell_of};
ghost use Rattle.matrix.specs.Facts.{Header, RowSpan, Matrix};
ghost use Rattle.dense_rows.specs.Dense.{marked, dense, Sized, Spread};
ghost use Rattle.products.specs.Products.{product_row, added_row};

// The two engines of the product. They give the same rows.
#[derive(Clone, Copy, Debug, PartialEq, Eq)]
pub enum Engine {
    ByPlaces,
    ByEntries,
}

// The row of the first input times the matrix b, by either engine.
pub fn product_row_by(
    engine: Engine,
    monoid: Monoid,
    op: BinaryOp,
    columns: &[u32],
    values: &[u32],
    b: &[u32],
    oc: &mut [u32],
    ov: &mut [u32],
) -> usize
    requires inputs { (Row (rows b.now) columns.now values.now) × (Matrix b.now) }
    requires output_room { (cols b.now ≤ length oc.old) × (cols b.now ≤ length ov.old) }
    ensures { Holds (cols b.now)
        (product_row monoid op (lookup columns.now values.now) b.now)
        result oc.new ov.new }
{
    match engine {
        Engine::ByPlaces => product_row(monoid, op, columns, values, b, oc, ov),
        Engine::ByEntries => by_entries::product_row_by_entries(
            monoid, op, columns, values, b, oc, ov,
        ),
    }
}

// The row of the first input times the matrix b, to the front of `oc` and `ov`; its number of entries. A row without
// entries costs nothing.
pub fn product_row(
    monoid: Monoid,
    op: BinaryOp,
    columns: &[u32],
    values: &[u32],
    b: &[u32],
    oc: &mut [u32],
    ov: &mut [u32],
) -> usize
    requires row { Row (rows b.now) columns.now values.now }
    requires matrix { Matrix b.now }
    requires output_room { (cols b.now ≤ length oc.old) × (cols b.now ≤ length ov.old) }
    ensures { Holds (cols b.now)
        (product_row monoid op (lookup columns.now values.now) b.now)
        result oc.new ov.new }
{
    if columns.is_empty() {
        return 0;
    }
    let mut marks = [0u32; ROW_PLACES];
    let mut cells = [0u32; ROW_PLACES];
    add_rows(monoid, op, columns, values, b, &mut marks, &mut cells);
    dense_rows::gather_row(b[COLS_AT] as usize, &marks, &cells, oc, ov)
}

// Adds up, for the entries of the row, each entry times the row of b that it names.
fn add_rows(
    monoid: Monoid,
    op: BinaryOp,
    columns: &[u32],
    values: &[u32],
    b: &[u32],
    marks: &mut [u32; ROW_PLACES],
    cells: &mut [u32; ROW_PLACES],
)
    requires row { Row (rows b.now) columns.now values.now }
    requires matrix { Matrix b.now }
    requires spread { Spread (λ j. None) marks.old cells.old }
    ensures { Spread
        (product_row monoid op (lookup columns.now values.now) b.now)
        marks.new cells.new }
{
    for (p, &k) in columns.iter().enumerate() {
        add_matrix_row(monoid, op, values[p], b, k as usize, marks, cells);
    }
}

// Adds x times row k of b.
fn add_matrix_row(
    monoid: Monoid,
    op: BinaryOp,
    x: u32,
    b: &[u32],
    k: usize,
    marks: &mut [u32; ROW_PLACES],
    cells: &mut [u32; ROW_PLACES],
)
    requires header { Header b.now }
    requires row_span { RowSpan b.now k }
    requires row { Row max_cols (row_columns b.now k) (row_values b.now k) }
    requires sized { Sized marks.old cells.old }
    ensures { Spread
        (added_row monoid op x (cell_of b.now k) (dense marks.old cells.old))
        marks.new cells.new }
{
    add_row(
        monoid,
        op,
        x,
        matrix::row_columns(b, k),
        matrix::row_values(b, k),
        marks,
        cells,
    );
}

// Adds x times a row.
fn add_row(
    monoid: Monoid,
    op: BinaryOp,
    x: u32,
    columns: &[u32],
    values: &[u32],
    marks: &mut [u32; ROW_PLACES],
    cells: &mut [u32; ROW_PLACES],
)
    requires entries { Row max_cols columns.now values.now }
    requires sized { Sized marks.old cells.old }
    ensures { Spread
        (added_row monoid op x (lookup columns.now values.now)
        (dense marks.old cells.old))
        marks.new cells.new }
{
    // Kept: `values[p]`, as a zip tests two lengths for each entry: 9 instructions in place of 6, measured.
    for (p, &column) in columns.iter().enumerate() {
        let j = column as usize;
        let y = values[p];
        let product = operators::apply_binary(op, x, y);
        let sum = add_product(monoid, marks[j], cells[j], product);
        marks[j] = 1;
        cells[j] = sum;
    }
}

// The sum at a place after one product more: the first product stands as it is.
fn add_product(monoid: Monoid, mark: u32, sum: u32, product: u32) -> u32
    ensures { Some result ≡ unite (monoid_op monoid) (marked mark sum) (Some product) }
{
    if mark == 0 {
        return product;
    }
    operators::apply_binary(operators::monoid_op(monoid), sum, product)
}
