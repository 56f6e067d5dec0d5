// A row of T as far as the mask lets it through: the write-back looks at T inside the mask only, and what lies outside
// need not be worked out.

#![tactic(auto)]

ghost use Rattle.std.specs.Prelude.{◌≡◌, true, ◌≤◌, length};
ghost use Rattle.rows.specs.Row.{lookup, Holds};
ghost use Rattle.matrix.specs.Layout.{cols, cell_of, grid_of};
ghost use Rattle.operations.specs.CellOperations.{dot};
ghost use Rattle.operations.specs.GridOperations.{result_grid};
ghost use Rattle.mask_rows.specs.Masks.{UnderMask};
ghost use Rattle.products.specs.Products.{inside_row};
ghost use Rattle.result_rows.specs.RowInputs.{RowInputs, Buffers, ProductInputs};
ghost use Rattle.masked_rows.specs.Inside.{MaskKnown, NoneInside, HoldsInside};

use operations::{Operation, WriteBack};
use operators::{BinaryOp, Monoid};
use products::Engine;

// Row i of T where it lies inside the mask, whose row is mc and mv, left at the front of `oc` and `ov`: its number of
// entries. What it has outside the mask is not said.
pub fn result_row_inside(
    engine: Engine,
    w: WriteBack,
    mc: &[u32],
    mv: &[u32],
    operation: Operation,
    a: &[u32],
    b: &[u32],
    c: &[u32],
    is: &[u32],
    js: &[u32],
    i: usize,
    oc: &mut [u32],
    ov: &mut [u32],
) -> usize
    requires row_inputs { RowInputs operation a.now b.now c.now is.now js.now i }
    requires buffers { Buffers (result_grid operation (grid_of a.now) (grid_of b.now) (grid_of c.now) is.now js.now)
        oc.old ov.old }
    requires mask_known { MaskKnown w mc.now mv.now }
    ensures { HoldsInside w (lookup mc.now mv.now)
        (result_grid operation (grid_of a.now) (grid_of b.now)
        (grid_of c.now) is.now js.now).cols
        ((result_grid operation (grid_of a.now) (grid_of b.now)
        (grid_of c.now) is.now js.now).cell i)
        result oc.new ov.new }
{
    if !w.has_mask {
        return result_rows::result_row(engine, operation, a, b, c, is, js, i, oc, ov);
    }
    if none_inside(w, mc) {
        return 0;
    }
    match engine {
        Engine::ByPlaces => result_rows::result_row(engine, operation, a, b, c, is, js, i, oc, ov),
        Engine::ByEntries => row_by_entries(w, mc, mv, operation, a, b, c, is, js, i, oc, ov),
    }
}

// The same under a mask, by the engine by entries: of the product what lies outside the mask is left out.
fn row_by_entries(
    w: WriteBack,
    mc: &[u32],
    mv: &[u32],
    operation: Operation,
    a: &[u32],
    b: &[u32],
    c: &[u32],
    is: &[u32],
    js: &[u32],
    i: usize,
    oc: &mut [u32],
    ov: &mut [u32],
) -> usize
    requires row_inputs { RowInputs operation a.now b.now c.now is.now js.now i }
    requires buffers { Buffers (result_grid operation (grid_of a.now) (grid_of b.now) (grid_of c.now) is.now js.now)
        oc.old ov.old }
    requires under_mask { UnderMask w mc.now mv.now }
    ensures { HoldsInside w (lookup mc.now mv.now)
        (result_grid operation (grid_of a.now) (grid_of b.now)
        (grid_of c.now) is.now js.now).cols
        ((result_grid operation (grid_of a.now) (grid_of b.now)
        (grid_of c.now) is.now js.now).cell i)
        result oc.new ov.new }
{
    match operation {
        Operation::Mxm(monoid, op) => masked_product(w, mc, mv, monoid, op, a, b, i, oc, ov),
        _ => result_rows::result_row(Engine::ByEntries, operation, a, b, c, is, js, i, oc, ov),
    }
}

// Whether no place lies inside the mask, by its row's length.
fn none_inside(w: WriteBack, mc: &[u32]) -> bool
    ensures { result ≡ true → NoneInside w mc.now }
{
    !w.complement && mc.is_empty()
}

// The product's row inside the mask.
fn masked_product(
    w: WriteBack,
    mc: &[u32],
    mv: &[u32],
    monoid: Monoid,
    op: BinaryOp,
    a: &[u32],
    b: &[u32],
    i: usize,
    oc: &mut [u32],
    ov: &mut [u32],
) -> usize
    requires product_inputs { ProductInputs a.now b.now i }
    requires under_mask { UnderMask w mc.now mv.now }
    requires b_in_bounds { (cols b.now ≤ length oc.old) × (cols b.now ≤ length ov.old) }
    ensures { Holds (cols b.now)
        (inside_row w (lookup mc.now mv.now)
        (λ j. dot monoid op (cols a.now) (cell_of a.now i) (λ k. cell_of b.now k j)))
        result oc.new ov.new }
{
    products::by_entries::product_row_inside(
        w,
        mc,
        mv,
        monoid,
        op,
        matrix::row_columns(a, i),
        matrix::row_values(a, i),
        b,
        oc,
        ov,
    )
}
