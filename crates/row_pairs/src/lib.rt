// Two sparse rows made into one by a walk over their entries: the intersection, the union, and the copy of a row. The
// steps have few branches: which of two columns is the lower one is used as a number.

#![tactic(auto)]

ghost use Rattle.std.specs.Prelude.{◌≡◌, ◌≤◌, length};
ghost use Rattle.operations.specs.CellOperations.{intersect, unite};
ghost use Rattle.rows.specs.Row.{lookup, Row, Holds};
ghost use Rattle.row_pairs.specs.Steps.{united_value, Rest, Copied};

use operators::BinaryOp;

// The intersection of two rows of `places` columns, to the front of `oc` and `ov`; its number of entries. Each pair of
// entries is written behind those that count, and counts itself where the columns are equal.
// Kept: two indexes that move by the data, which no iterator has.
pub fn intersect_rows(
    op: BinaryOp,
    places: u32,
    ac: &[u32],
    av: &[u32],
    bc: &[u32],
    bv: &[u32],
    oc: &mut [u32],
    ov: &mut [u32],
) -> usize
    requires first_row { Row places ac.now av.now }
    requires second_row { Row places bc.now bv.now }
    requires output_room { (places ≤ length oc.old) × (places ≤ length ov.old) }
    ensures { Holds places
        (λ j. intersect op (lookup ac.now av.now j)
        (lookup bc.now bv.now j))
        result oc.new ov.new }
{
    let mut i: usize = 0;
    let mut k: usize = 0;
    let mut e: usize = 0;
    while i < ac.len() {
        if bc.len() <= k {
            return e;
        }
        let a = ac[i];
        let b = bc[k];
        oc[e] = a;
        ov[e] = operators::apply_binary(op, av[i], bv[k]);
        e += usize::from(a == b);
        i += usize::from(a <= b);
        k += usize::from(b <= a);
    }
    e
}

// The union of two rows of `places` columns, to the front of `oc` and `ov`; its number of entries.
// Kept: two indexes that move by the data, which no iterator has.
pub fn unite_rows(
    op: BinaryOp,
    places: u32,
    ac: &[u32],
    av: &[u32],
    bc: &[u32],
    bv: &[u32],
    oc: &mut [u32],
    ov: &mut [u32],
) -> usize
    requires first_row { Row places ac.now av.now }
    requires second_row { Row places bc.now bv.now }
    requires output_room { (places ≤ length oc.old) × (places ≤ length ov.old) }
    ensures { Holds places
        (λ j. unite op (lookup ac.now av.now j)
        (lookup bc.now bv.now j))
        result oc.new ov.new }
{
    let mut i: usize = 0;
    let mut k: usize = 0;
    let mut e: usize = 0;
    while i < ac.len() {
        if bc.len() <= k {
            return copy_rest(ac, av, i, oc, ov, e);
        }
        let a = ac[i];
        let b = bc[k];
        oc[e] = a.min(b);
        ov[e] = united(op, a, b, av[i], bv[k]);
        e += 1;
        i += usize::from(a <= b);
        k += usize::from(b <= a);
    }
    copy_rest(bc, bv, k, oc, ov, e)
}

// A row of `places` columns, to the front of `oc` and `ov`; its number of entries.
pub fn copy_row(
    places: u32,
    columns: &[u32],
    values: &[u32],
    oc: &mut [u32],
    ov: &mut [u32],
) -> usize
    requires row { Row places columns.now values.now }
    requires output_room { (places ≤ length oc.old) × (places ≤ length ov.old) }
    ensures { Holds places (lookup columns.now values.now) result oc.new
        ov.new }
{
    copy_rest(columns, values, 0, oc, ov, 0)
}

// The entries of a row from index `from` on are written behind `at` entries: how many there are then.
fn copy_rest(
    columns: &[u32],
    values: &[u32],
    from: usize,
    oc: &mut [u32],
    ov: &mut [u32],
    at: usize,
) -> usize
    requires { Rest columns.now values.now from oc.old ov.old at }
    ensures { Copied columns.now values.now from oc.old ov.old at
        oc.new ov.new result }
{
    words::copy_into(oc, at, &columns[from..]);
    words::copy_into(ov, at, &values[from..]);
    at + (columns.len() - from)
}

// The value of a union at the lower of columns a and b, with the values x and y there: the lone one, or the operator's.
fn united(op: BinaryOp, a: u32, b: u32, x: u32, y: u32) -> u32
    ensures { result ≡ united_value op a b x y }
{
    let z = operators::apply_binary(op, x, y);
    if a < b {
        x
    } else if b < a {
        y
    } else {
        z
    }
}
