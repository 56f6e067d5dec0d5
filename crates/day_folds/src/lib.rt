// A day matrix over a base matrix folded into one new matrix (document 02, A7), for matrices that fit together.

#![tactic(auto)]

ghost use Rattle.std.specs.Prelude.{◌≡◌, ◌+◌, ◌≤◌, ◌<◌, length};
ghost use Rattle.limits.specs.Limits.{max_cols, max_entries};
ghost use Rattle.grid.specs.Entries.{entry_count};
ghost use Rattle.matrix.specs.Layout.{rows, row_columns, row_values, max_matrix_words};
ghost use Rattle.encoding.specs.Encode.{grid_size, written_over};
ghost use Rattle.results.specs.Staging.{Staged};
ghost use Rattle.day_marks.specs.Marks.{shown_words};
ghost use Rattle.day_requests.specs.Ready.{Pair};
ghost use Rattle.day_folds.specs.Folding.{lent_fold};

use matrix::layout::{FIXED_WORDS, MAX_MATRIX_WORDS};

// How many entries the folded matrix has.
pub fn folded_count<'a>(base: &'a [u32], day: &'a [u32], marks: &[u32]) -> usize
    requires { Pair base.now day.now marks.now }
    ensures { result ≡ entry_count (lent_fold base.now day.now marks.now) }
{
    let r = matrix::row_count(base) as usize;
    (0..r).map(|i| row_length(base, day, marks, i)).sum()
}

// How many entries row i of the folded matrix has.
fn row_length<'a>(base: &'a [u32], day: &'a [u32], marks: &[u32], i: usize) -> usize
    requires pair { Pair base.now day.now marks.now }
    requires row { i < rows base.now }
    ensures columns { result ≡ length (row_columns (shown_words base.now day.now marks.now i) i) }
    ensures within { result ≤ max_cols }
{
    let source = day_marks::shown(base, day, marks, i as u32);
    matrix::row_columns(source, i).len()
}

// The folded matrix, which has n entries and fits, over the front of `out`, whatever that held.
pub fn write_folded<'a>(base: &'a [u32], day: &'a [u32], marks: &[u32], n: usize, out: &mut [u32])
    requires pair { Pair base.now day.now marks.now }
    requires entries { n ≡ entry_count (lent_fold base.now day.now marks.now) }
    requires few { n ≤ max_entries }
    requires space { grid_size (lent_fold base.now day.now marks.now) ≤ length out.old }
    ensures { out.new ≡ written_over (lent_fold base.now day.now marks.now)
        out.old }
{
    let mut staged = [0u32; MAX_MATRIX_WORDS];
    let r = matrix::row_count(base) as usize;
    let c = matrix::col_count(base) as usize;
    stage_rows(base, day, marks, &mut staged);
    results::finish(&mut staged, r, c, n);
    words::copy_into(out, 0, &staged[..r + 2 * n + FIXED_WORDS]);
}

// All rows are staged.
fn stage_rows<'a>(base: &'a [u32], day: &'a [u32], marks: &[u32], work: &mut [u32])
    requires pair { Pair base.now day.now marks.now }
    requires few { entry_count (lent_fold base.now day.now marks.now) ≤ max_entries }
    requires space { max_matrix_words ≤ length work.old }
    ensures { Staged (lent_fold base.now day.now marks.now)
        (rows base.now) (entry_count (lent_fold base.now day.now marks.now))
        work.new }
{
    let r = matrix::row_count(base) as usize;
    let mut n: usize = 0;
    for i in 0..r {
        n = stage_row(base, day, marks, i, n, work);
    }
}

// Row i of the folded matrix is staged after n entries; how many there are then.
fn stage_row<'a>(
    base: &'a [u32],
    day: &'a [u32],
    marks: &[u32],
    i: usize,
    n: usize,
    work: &mut [u32],
) -> usize
    requires pair { Pair base.now day.now marks.now }
    requires row { i < rows base.now }
    requires few { entry_count (lent_fold base.now day.now marks.now) ≤ max_entries }
    requires space { max_matrix_words ≤ length work.old }
    requires staged { Staged (lent_fold base.now day.now marks.now) i n work.old }
    ensures { Staged (lent_fold base.now day.now marks.now) (i + 1) result
        work.new }
{
    let source = day_marks::shown(base, day, marks, i as u32);
    let columns = matrix::row_columns(source, i);
    let r = matrix::row_count(base) as usize;
    results::stage_row(work, r, i, n, columns, matrix::row_values(source, i));
    n + columns.len()
}
