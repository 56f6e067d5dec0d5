// The transpose of a matrix, by counting: the number of entries in each column says where its entries go, and one walk
// over the rows puts them there. The time goes by entries, rows and columns.

#![tactic(auto)]

ghost use Rattle.std.specs.Prelude.{◌≡◌, ◌+◌, ◌≤◌, length};
ghost use Rattle.rows.specs.Row.{Row};
ghost use Rattle.matrix.specs.Layout.{max_matrix_words, cols, row_columns, row_values, grid_of};
ghost use Rattle.matrix.specs.Facts.{Header, RowSpan, Matrix};
ghost use Rattle.encoding.specs.Encode.{written_over};
ghost use Rattle.operations.specs.GridOperations.{transposed};
ghost use Rattle.transpose.specs.Counts.{Countable, CountsOf, Summable, Sums};
ghost use Rattle.transpose.specs.Placed.{EntrySections, Placed, Room, Ready};

use limits::ROW_PLACES;
use matrix::layout::{
    COLS_AT, COLUMNS_PAST, COUNT_AGAIN_PAST, COUNT_PAST, FIXED_WORDS, ROWS_AT, STARTS_AT,
};

// The transposed matrix at the front of `out`; what lies behind it stays.
pub fn transpose(a: &[u32], out: &mut [u32])
    requires matrix { Matrix a.now }
    requires output_room { max_matrix_words ≤ length out.old }
    ensures { out.new ≡ written_over (transposed (grid_of a.now)) out.old }
{
    let rows = a[ROWS_AT];
    let cols = a[COLS_AT];
    let r = rows as usize;
    let c = cols as usize;
    let count = matrix::entry_count(a);
    let n = count as usize;
    let columns_at = r + COLUMNS_PAST;
    let columns_end = r + n + COUNT_AGAIN_PAST;
    let mut next = [0u32; ROW_PLACES];
    count_columns(&a[columns_at..columns_end], &mut next);
    let starts_end = c + COUNT_PAST;
    write_starts(c, &mut next, &mut out[STARTS_AT..starts_end]);
    let end = c + n + n + FIXED_WORDS;
    write_entries(a, &mut next, &mut out[starts_end..end]);
    matrix::write_header(out, cols, rows, count);
}

// How often each column number occurs.
fn count_columns(columns: &[u32], counts: &mut [u32])
    requires { Countable columns.now counts.old }
    ensures { CountsOf columns.now counts.new }
{
    for &column in columns {
        counts[column as usize] += 1;
    }
}

// For each of the first c counts the sum of those before it, in its place and in `starts`; then the sum of them all.
fn write_starts(c: usize, counts: &mut [u32], starts: &mut [u32])
    requires { Summable c counts.old starts.old }
    ensures { Sums c counts.old counts.new starts.new }
{
    let mut sum: u32 = 0;
    // Kept: one index over two slices, as a zip tests two lengths in each turn.
    for j in 0..c {
        let count = counts[j];
        starts[j] = sum;
        counts[j] = sum;
        sum += count;
    }
    starts[c] = sum;
}

// The column numbers and the values of the transposed matrix, each after the word for their count. `next` has the start
// of each column of `a`.
fn write_entries(a: &[u32], next: &mut [u32], sections: &mut [u32])
    requires matrix { Matrix a.now }
    requires ready { Ready (transposed (grid_of a.now)) next.old sections.old }
    ensures { EntrySections (transposed (grid_of a.now)) sections.new }
{
    let r = a[ROWS_AT] as usize;
    let n = matrix::entry_count(a) as usize;
    for i in 0..r {
        place_row(a, i, n, next, sections);
    }
}

// The entries of row i of `a`, which has n in all, go to the next places of their columns. The column numbers begin
// after the word for their count, the first of `sections`, and the values after theirs, word n + 1.
fn place_row(a: &[u32], i: usize, n: usize, next: &mut [u32], sections: &mut [u32])
    requires header { Header a.now }
    requires row_span { RowSpan a.now i }
    requires row { Row (cols a.now) (row_columns a.now i) (row_values a.now i) }
    requires room { Room (transposed (grid_of a.now)) n next.old sections.old }
    requires placed { Placed (transposed (grid_of a.now)) i next.old sections.old }
    ensures { Placed (transposed (grid_of a.now)) (i + 1) next.new sections.new }
{
    let columns = matrix::row_columns(a, i);
    let values = matrix::row_values(a, i);
    // Kept: `values[k]`, as a zip tests two lengths for each entry and is slower.
    for (k, &column) in columns.iter().enumerate() {
        let j = column as usize;
        let place = next[j];
        let p = place as usize;
        sections[p + 1] = i as u32;
        sections[p + n + 2] = values[k];
        next[j] = place + 1;
    }
}
