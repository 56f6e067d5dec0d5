// Dense rows: a mark and a value for every place, in two arrays of a row's size.

#![tactic(auto)]

ghost use Rattle.std.specs.Prelude.{◌≤◌, length};
ghost use Rattle.limits.specs.Limits.{max_cols};
ghost use Rattle.rows.specs.Row.{Holds};
ghost use Rattle.dense_rows.specs.Dense.{dense};

use limits::ROW_PLACES;

// The marked places among the first `places`, in order, to the front of `oc` and `ov`; how many they are.
pub fn gather_row(
    places: usize,
    marks: &[u32; ROW_PLACES],
    cells: &[u32; ROW_PLACES],
    oc: &mut [u32],
    ov: &mut [u32],
) -> usize
    requires { (places ≤ max_cols) × (places ≤ length oc.old) × (places ≤ length ov.old) }
    ensures { Holds places (dense marks.now cells.now) result oc.new
        ov.new }
{
    let mut e: usize = 0;
    for j in 0..places {
        if marks[j] != 0 {
            oc[e] = j as u32;
            ov[e] = cells[j];
            e += 1;
        }
    }
    e
}
