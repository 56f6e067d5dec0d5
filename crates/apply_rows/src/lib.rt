// Apply on one row of the input as its transpose flag asks, and on the values of a whole matrix.

#![tactic(auto)]

ghost use Rattle.std.specs.Prelude.{◌≡◌, map, ◌+◌, ◌≤◌, length};
ghost use Rattle.words.specs.Words.{overwrite};
ghost use Rattle.operations.specs.CellOperations.{apply_cell};
ghost use Rattle.rows.specs.Row.{lookup, Row, Holds};
ghost use Rattle.apply_rows.specs.Values.{by_value, value_word};

use operators::ApplyOp;

// Row i, of `places` columns: each entry keeps its column, and its value becomes what the operator makes of it at row i
// and that column. The result is left at the front of `oc` and `ov`, and its number of entries returned.
pub fn apply_row(
    places: usize,
    op: ApplyOp,
    i: u32,
    columns: &[u32],
    values: &[u32],
    oc: &mut [u32],
    ov: &mut [u32],
) -> usize
    requires fact_1 { Row places columns.now values.now }
    requires fact_2 { (places ≤ length oc.old) × (places ≤ length ov.old) }
    ensures { Holds places
        (λ j. apply_cell op i j (lookup columns.now values.now j))
        result oc.new ov.new }
{
    for (p, &j) in columns.iter().enumerate() {
        let x = values[p];
        let y = operators::apply_entry(op, x, i, j);
        oc[p] = j;
        ov[p] = y;
    }
    columns.len()
}

// Whether an operator looks at the value alone, and not at row and column numbers.
pub fn by_value(op: ApplyOp) -> bool
    ensures { result ≡ by_value op }
{
    match op {
        ApplyOp::Unary(_) | ApplyOp::BinaryScalarFirst(_, _) | ApplyOp::BinaryScalarSecond(_, _) =>
            true,
        ApplyOp::IndexUnary(_, _) => false,
    }
}

// What an operator that looks at the value alone makes of the values `src`, written into `dst` from `at` on.
pub fn apply_values(op: ApplyOp, dst: &mut [u32], at: usize, src: &[u32])
    requires { at + length src.now ≤ length dst.old }
    ensures { dst.new ≡ overwrite at (map (value_word op) src.now) dst.old }
{
    for (k, &x) in src.iter().enumerate() {
        dst[at + k] = operators::apply_entry(op, x, 0, 0);
    }
}
