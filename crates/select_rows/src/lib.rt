// Select on one row of the input as its transpose flag asks.

#![tactic(auto)]

ghost use Rattle.std.specs.Prelude.{◌≤◌, length};
ghost use Rattle.operations.specs.CellOperations.{select_cell};
ghost use Rattle.rows.specs.Row.{lookup, Row, Holds};

use select_ops::SelectOp;

// Row i, of `places` columns: the entries for which the condition holds at row i and their column, each as it is. The
// result is left at the front of `oc` and `ov`, and its number of entries returned.
pub fn select_row(
    places: usize,
    op: SelectOp,
    i: u32,
    columns: &[u32],
    values: &[u32],
    oc: &mut [u32],
    ov: &mut [u32],
) -> usize
    requires fact_1 { Row places columns.now values.now }
    requires fact_2 { (places ≤ length oc.old) × (places ≤ length ov.old) }
    ensures { Holds places
        (λ j. select_cell op i j (lookup columns.now values.now j))
        result oc.new ov.new }
{
    let mut e: usize = 0;
    for (p, &j) in columns.iter().enumerate() {
        let x = values[p];
        if select_ops::is_selected(op, x, i, j) {
            oc[e] = j;
            ov[e] = x;
            e += 1;
        }
    }
    e
}
