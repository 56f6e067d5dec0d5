// A row of the Kronecker product, from a row of each input: for each entry of the first a block of the second's
// columns.

#![tactic(auto)]

ghost use Rattle.std.specs.Prelude.{◌+◌, ◌*◌, ◌/◌, ◌%◌, ◌≤◌, length};
ghost use Rattle.limits.specs.Limits.{max_cols};
ghost use Rattle.operations.specs.CellOperations.{intersect};
ghost use Rattle.rows.specs.Row.{lookup, Row, Holds};
ghost use Rattle.kronecker_rows.specs.Blocks.{BlockAdded};

use operators::BinaryOp;

// The row whose cell j · places + l is the operator's on the first row's cell j and the second row's cell l, of
// `blocks` and `places` columns. It is left at the front of `oc` and `ov`, and its number of entries returned.
pub fn kronecker_row(
    op: BinaryOp,
    blocks: u32,
    places: u32,
    ac: &[u32],
    av: &[u32],
    bc: &[u32],
    bv: &[u32],
    oc: &mut [u32],
    ov: &mut [u32],
) -> usize
    requires blocks_le_max_cols_1 { (blocks ≤ max_cols) × (places ≤ max_cols) }
    requires blocks_le_max_cols_2 { Row blocks ac.now av.now }
    requires blocks_le_max_cols_3 { Row places bc.now bv.now }
    requires places_in_bounds { (blocks * places ≤ length oc.old) × (blocks * places ≤ length ov.old) }
    ensures { Holds (blocks * places)
        (λ j. intersect op (lookup ac.now av.now (j / places))
        (lookup bc.now bv.now (j % places)))
        result oc.new ov.new }
{
    let mut e: usize = 0;
    for (p, &j) in ac.iter().enumerate() {
        let base = j * places;
        e = add_block(op, av[p], base, places, bc, bv, oc, ov, e);
    }
    e
}

// The entries of a row with their columns moved by `base` and the operator's values, x first, behind `count` entries:
// how many there are then.
fn add_block(
    op: BinaryOp,
    x: u32,
    base: u32,
    places: u32,
    columns: &[u32],
    values: &[u32],
    oc: &mut [u32],
    ov: &mut [u32],
    count: usize,
) -> usize
    requires row { Row places columns.now values.now }
    requires base_in_bounds { (count ≤ base) × (base + places ≤ max_cols * max_cols) }
    requires places_in_bounds { (base + places ≤ length oc.old) × (base + places ≤ length ov.old) }
    ensures { BlockAdded op x base places columns.now values.now oc.old
        ov.old count oc.new ov.new result }
{
    for (p, &j) in columns.iter().enumerate() {
        oc[count + p] = base + j;
        ov[count + p] = operators::apply_binary(op, x, values[p]);
    }
    count + columns.len()
}
