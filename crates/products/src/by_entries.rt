// The product's row in time by entries: the sums stand in `ov` itself, each at its column, the columns are marked in a
// map of bits, and the marked ones are collected in place. No buffer of a row's size is cleared or gone through.
ghost use Rattle.std.specs.Prelude.{◌≡◌, true, ◌≤◌, ◌<◌, length, None};
ghost use Rattle.limits.specs.Limits.{max_cols};
ghost use Rattle.operators.specs.declared.Monoid.TheVariants.{Plus};
ghost use Rattle.operators.specs.declared.BinaryOp.TheVariants.{Times};
ghost use Rattle.rows.specs.Row.{lookup, Row, Holds};
ghost use Rattle.matrix.specs.Layout.{rows, cols, row_columns, row_values, cell_of};
ghost use Rattle.matrix.specs.Facts.{Header, RowSpan, Matrix};
ghost use Rattle.bit_rows.specs.Bits.{flagged, Tracked, Carries};
ghost use Rattle.mask_rows.specs.Masks.{UnderMask};
ghost use Rattle.products.specs.Products.{product_row, added_row, inside_row, AddedAt};

use bit_rows::MAP_WORDS;
use operations::WriteBack;
use operators::{BinaryOp, Monoid};

// The row of the first input times the matrix b, to the front of `oc` and `ov`; its number of entries. A row without
// entries costs nothing.
pub fn product_row_by_entries(
    monoid: Monoid,
    op: BinaryOp,
    columns: &[u32],
    values: &[u32],
    b: &[u32],
    oc: &mut [u32],
    ov: &mut [u32],
) -> usize
    requires row { Row (rows b.now) columns.now values.now }
    requires matrix { Matrix b.now }
    requires output_room { (cols b.now ≤ length oc.old) × (cols b.now ≤ length ov.old) }
    ensures { Holds (cols b.now)
        (product_row monoid op (lookup columns.now values.now) b.now)
        result oc.new ov.new }
{
    if columns.is_empty() {
        return 0;
    }
    let mut map = [0u64; MAP_WORDS];
    let top = sum_rows(monoid, op, columns, values, b, &mut map, ov);
    bit_rows::collect(top, &map, oc, ov)
}

// The same, but what lies outside the mask, whose row is mc and mv, is left out.
pub fn product_row_inside(
    w: WriteBack,
    mc: &[u32],
    mv: &[u32],
    monoid: Monoid,
    op: BinaryOp,
    columns: &[u32],
    values: &[u32],
    b: &[u32],
    oc: &mut [u32],
    ov: &mut [u32],
) -> usize
    requires row { Row (rows b.now) columns.now values.now }
    requires matrix { Matrix b.now }
    requires output_room { (cols b.now ≤ length oc.old) × (cols b.now ≤ length ov.old) }
    requires under_mask { UnderMask w mc.now mv.now }
    ensures { Holds (cols b.now)
        (inside_row w (lookup mc.now mv.now)
        (product_row monoid op (lookup columns.now values.now) b.now))
        result oc.new ov.new }
{
    if columns.is_empty() {
        return 0;
    }
    let mut kept = [0u64; MAP_WORDS];
    let top = sum_rows(monoid, op, columns, values, b, &mut kept, ov);
    mask_rows::keep_inside(w, mc, mv, &mut kept);
    bit_rows::collect(top, &kept, oc, ov)
}

// Adds up, for the entries of the row, each entry times the row of b that it names: the top word of the map.
fn sum_rows(
    monoid: Monoid,
    op: BinaryOp,
    columns: &[u32],
    values: &[u32],
    b: &[u32],
    map: &mut [u64; MAP_WORDS],
    sums: &mut [u32],
) -> u64
    requires row { Row (rows b.now) columns.now values.now }
    requires matrix { Matrix b.now }
    requires clear { Carries (λ j. None) 0 map.old sums.old }
    requires sums_room { cols b.now ≤ length sums.old }
    ensures { Carries
        (product_row monoid op (lookup columns.now values.now) b.now)
        result map.new sums.new }
{
    let mut top: u64 = 0;
    for (p, &k) in columns.iter().enumerate() {
        top = sum_matrix_row(monoid, op, values[p], b, k as usize, top, map, sums);
    }
    top
}

// Adds x times row k of b: the new top word.
fn sum_matrix_row(
    monoid: Monoid,
    op: BinaryOp,
    x: u32,
    b: &[u32],
    k: usize,
    top: u64,
    map: &mut [u64; MAP_WORDS],
    sums: &mut [u32],
) -> u64
    requires header { Header b.now }
    requires row_span { RowSpan b.now k }
    requires row { Row max_cols (row_columns b.now k) (row_values b.now k) }
    requires row_fits { Row (length sums.old) (row_columns b.now k) (row_values b.now k) }
    requires tracked { Tracked top map.old }
    ensures { Carries
        (added_row monoid op x (cell_of b.now k) (flagged map.old sums.old))
        result map.new sums.new }
{
    sum_row(
        monoid,
        op,
        x,
        matrix::row_columns(b, k),
        matrix::row_values(b, k),
        top,
        map,
        sums,
    )
}

// Adds x times a row: the new top word. The loop over its entries is compiled once more for plus and times.
fn sum_row(
    monoid: Monoid,
    op: BinaryOp,
    x: u32,
    columns: &[u32],
    values: &[u32],
    top: u64,
    map: &mut [u64; MAP_WORDS],
    sums: &mut [u32],
) -> u64
    requires row { Row max_cols columns.now values.now }
    requires row_fits { Row (length sums.old) columns.now values.now }
    requires tracked { Tracked top map.old }
    ensures { Carries
        (added_row monoid op x (lookup columns.now values.now)
        (flagged map.old sums.old))
        result map.new sums.new }
{
    if is_plus_times(monoid, op) {
        return sum_entries(
            Monoid::Plus,
            BinaryOp::Times,
            x,
            columns,
            values,
            top,
            map,
            sums,
        );
    }
    sum_entries(monoid, op, x, columns, values, top, map, sums)
}

// Whether products are multiplied by times and added up by plus.
fn is_plus_times(monoid: Monoid, op: BinaryOp) -> bool
    ensures { result ≡ true → (monoid ≡ Plus) × (op ≡ Times) }
{
    matches!((monoid, op), (Monoid::Plus, BinaryOp::Times))
}

// Adds x times each entry of a row: the new top word.
fn sum_entries(
    monoid: Monoid,
    op: BinaryOp,
    x: u32,
    columns: &[u32],
    values: &[u32],
    top: u64,
    map: &mut [u64; MAP_WORDS],
    sums: &mut [u32],
) -> u64
    requires row { Row max_cols columns.now values.now }
    requires row_fits { Row (length sums.old) columns.now values.now }
    requires tracked { Tracked top map.old }
    ensures { Carries
        (added_row monoid op x (lookup columns.now values.now)
        (flagged map.old sums.old))
        result map.new sums.new }
{
    let mut used = top;
    // Kept: `values[p]`, as a zip tests two lengths for each entry (`add_row`).
    for (p, &j) in columns.iter().enumerate() {
        let y = values[p];
        let product = operators::apply_binary(op, x, y);
        used = add_at(monoid, product, j as usize, used, map, sums);
    }
    used
}

// Adds a product at column j, which is marked: the new top word. Where it was marked before, the map stays as it is.
fn add_at(
    monoid: Monoid,
    product: u32,
    j: usize,
    top: u64,
    map: &mut [u64; MAP_WORDS],
    sums: &mut [u32],
) -> u64
    requires in_reach { (j < max_cols) × (j < length sums.old) }
    requires tracked { Tracked top map.old }
    ensures { AddedAt monoid product j map.old sums.old
        result map.new sums.new }
{
    let mark = bit_rows::mark_at(map, j);
    if mark == 0 {
        sums[j] = product;
        return bit_rows::mark_column(top, map, j);
    }
    let sum = crate::add_product(monoid, mark, sums[j], product);
    sums[j] = sum;
    top
}
