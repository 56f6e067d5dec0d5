// One entry of a valid matrix, changed in place, and the revision with it.

#![tactic(auto)]

ghost use Rattle.std.specs.Prelude.{◌≡◌, ◌≤◌, None, Some};
ghost use Rattle.limits.specs.Limits.{max_entries};
ghost use Rattle.grid.specs.Position.{AbsentAt, PresentAt};
ghost use Rattle.matrix.specs.Layout.{grid_of};
ghost use Rattle.edits.specs.Changes.{InMatrix, HasSpace, PutBounds, entry_put, TakeBounds, entry_taken};
ghost use Rattle.edits.specs.Changes.{updated, shifted, Mapped, Bounded};

use matrix::layout::{COLUMNS_PAST, COUNT_AGAIN_PAST, COUNT_PAST, ROWS_AT, STARTS_AT, VALUES_PAST};

// The entry of row i and column j, at position p, takes the value v.
pub fn replace_value(words: &mut [u32], i: usize, j: u32, p: usize, v: u32)
    requires fact_1 { InMatrix words.old i j }
    requires fact_2 { PresentAt (grid_of words.old) i j p }
    ensures { words.new ≡ updated words.old i j (Some v) }
{
    let r = words[ROWS_AT] as usize;
    let n = words[r + COUNT_PAST] as usize;
    words[r + n + VALUES_PAST + p] = v;
    matrix::touch(words);
}

// Row i and column j, which has no entry, gets one with the value v, at position p. Each word is moved at most once.
pub fn insert_entry(words: &mut [u32], i: usize, j: u32, p: usize, v: u32)
    requires fact_1 { InMatrix words.old i j }
    requires fact_2 { AbsentAt (grid_of words.old) i j p }
    requires fact_3 { HasSpace words.old }
    ensures { words.new ≡ updated words.old i j (Some v) }
{
    let r = words[ROWS_AT] as usize;
    let n = words[r + COUNT_PAST] as usize;
    shift_words(words, i + 1 + STARTS_AT, r + 1 + STARTS_AT, 1, 0);
    put_entry(words, r, n, p, j, v);
    matrix::touch(words);
}

// Row i and column j loses its entry, at position p. Each word is moved at most once.
pub fn remove_entry(words: &mut [u32], i: usize, j: u32, p: usize)
    requires fact_1 { InMatrix words.old i j }
    requires fact_2 { PresentAt (grid_of words.old) i j p }
    ensures { words.new ≡ updated words.old i j None }
{
    let r = words[ROWS_AT] as usize;
    let n = words[r + COUNT_PAST] as usize;
    shift_words(words, i + 1 + STARTS_AT, r + 1 + STARTS_AT, 0, 1);
    take_entry(words, r, n, p);
    matrix::touch(words);
}

// In a matrix of r rows and n entries, room is made at position p, and the entry and the two counts are written. The
// row starts are left.
fn put_entry(words: &mut [u32], r: usize, n: usize, p: usize, j: u32, v: u32)
    requires { PutBounds r n p words.old }
    ensures { words.new ≡ entry_put r n p j v words.old }
{
    let column_at = r + COLUMNS_PAST + p;
    let value_at = r + n + VALUES_PAST + p;
    words::move_up(words, value_at, value_at + 2, n - p);
    words::move_up(words, column_at, column_at + 1, n + 1);
    words[column_at] = j;
    words[value_at + 1] = v;
    let more = n + 1;
    words[r + COUNT_PAST] = more as u32;
    words[r + more + COUNT_AGAIN_PAST] = more as u32;
}

// In a matrix of r rows and n entries, entry p is taken out, and the two counts are written. The row starts are left.
fn take_entry(words: &mut [u32], r: usize, n: usize, p: usize)
    requires { TakeBounds r n p words.old }
    ensures { words.new ≡ entry_taken r n p words.old }
{
    let column_at = r + COLUMNS_PAST + p;
    let value_at = r + n + VALUES_PAST + p;
    words::move_down(words, column_at + 1, column_at, n);
    words::move_down(words, value_at + 1, value_at - 1, n - p - 1);
    let fewer = n - 1;
    words[r + COUNT_PAST] = fewer as u32;
    words[r + fewer + COUNT_AGAIN_PAST] = fewer as u32;
}

// Each word from `from` up to, and not including, `to` grows by `more` and shrinks by `less`.
pub fn shift_words(words: &mut [u32], from: usize, to: usize, more: u32, less: u32)
    requires bounded { Bounded less max_entries from to words.old }
    requires small { more ≤ max_entries }
    ensures { Mapped (shifted more less) from to words.old words.new }
{
    for word in words[from..to].iter_mut() {
        *word = *word + more - less;
    }
}
