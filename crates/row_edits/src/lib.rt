// One row of a valid matrix, replaced in place, and the revision with it.

#![tactic(auto)]

ghost use Rattle.std.specs.Prelude.{◌≡◌};
ghost use Rattle.rows.specs.Row.{lookup};
ghost use Rattle.matrix.specs.Layout.{grid_of};
ghost use Rattle.day_grids.specs.Day.{with_row};
ghost use Rattle.row_edits.specs.Replacing.{Replaceable, RoomBounds, Opened, PutBounds, row_put};
ghost use Rattle.encoding.specs.Encode.{updated_to};

use matrix::layout::{COLUMNS_PAST, COUNT_AGAIN_PAST, COUNT_PAST, ROWS_AT, STARTS_AT, VALUES_PAST};

// Row i takes these columns and values. Each word behind the row is moved at most once.
pub fn replace_row(words: &mut [u32], i: usize, columns: &[u32], values: &[u32])
    requires { Replaceable words.old i columns.now values.now }
    ensures { words.new ≡ updated_to (with_row (grid_of words.old) i
        (lookup columns.now values.now)) words.old }
{
    let r = words[ROWS_AT] as usize;
    let n = words[r + COUNT_PAST] as usize;
    let a = words[i + STARTS_AT] as usize;
    let b = words[i + 1 + STARTS_AT] as usize;
    let k = columns.len();
    edits::shift_words(
        words,
        i + 1 + STARTS_AT,
        r + 1 + STARTS_AT,
        k as u32,
        (b - a) as u32,
    );
    make_room(words, r, n, a, b, k);
    put_row(words, r, n + k + a - b, a, columns, values);
    matrix::touch(words);
}

// In a matrix of r rows and n entries, room for k entries is made in place of the entries from a up to b: the values
// behind them, and the words from the columns behind them to the values before them, are moved. The row starts and
// the counts are left.
fn make_room(words: &mut [u32], r: usize, n: usize, a: usize, b: usize, k: usize)
    requires { RoomBounds r n a b k words.old }
    ensures { Opened r n a b k words.old words.new }
{
    let columns_from = r + COLUMNS_PAST + b;
    let columns_to = r + COLUMNS_PAST + a + k;
    let values_from = r + n + VALUES_PAST + b;
    let values_to = r + n + VALUES_PAST + a + k + a + k - b;
    if b < a + k {
        words::move_up(words, values_from, values_to, n - b);
        words::move_up(words, columns_from, columns_to, n - b + 1 + a);
    } else {
        words::move_down(words, columns_from, columns_to, n - b + 1 + a);
        words::move_down(words, values_from, values_to, n - b);
    }
}

// The columns and the values of a row, after the first a entries of a matrix of r rows and n entries, and the counts.
fn put_row(words: &mut [u32], r: usize, n: usize, a: usize, columns: &[u32], values: &[u32])
    requires { PutBounds r n a columns.now values.now words.old }
    ensures { words.new ≡ row_put r n a columns.now values.now
        words.old }
{
    words::copy_into(words, r + COLUMNS_PAST + a, columns);
    words::copy_into(words, r + n + VALUES_PAST + a, values);
    words[r + COUNT_PAST] = n as u32;
    words[r + n + COUNT_AGAIN_PAST] = n as u32;
}
