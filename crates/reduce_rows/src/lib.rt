// The rows of a matrix reduced by a monoid, into one row.

#![tactic(auto)]

ghost use Rattle.std.specs.Prelude.{◌≤◌, length};
ghost use Rattle.reductions.specs.Reductions.{reduced_row};
ghost use Rattle.rows.specs.Row.{Holds};
ghost use Rattle.matrix.specs.Layout.{rows, cols, cell_of};
ghost use Rattle.matrix.specs.Facts.{Matrix};

use operators::Monoid;

// A row with a column for each row of the matrix: the total of that row's values, where it has entries. It is left at
// the front of `oc` and `ov`, and its number of entries returned.
pub fn reduce_rows(m: Monoid, words: &[u32], oc: &mut [u32], ov: &mut [u32]) -> usize
    requires fact_1 { Matrix words.now }
    requires fact_2 { (rows words.now ≤ length oc.old) × (rows words.now ≤ length ov.old) }
    ensures { Holds (rows words.now)
        (λ j. reduced_row m (cols words.now) (cell_of words.now j))
        result oc.new ov.new }
{
    let n = matrix::row_count(words);
    let mut e: usize = 0;
    for j in 0..n {
        let values = matrix::row_values(words, j as usize);
        if let Some(x) = reductions::reduce_values(m, values) {
            oc[e] = j;
            ov[e] = x;
            e += 1;
        }
    }
    e
}
