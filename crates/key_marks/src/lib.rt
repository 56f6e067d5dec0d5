// Keys behind doors over matrices in words: a word for each key, not 0 where it is held, and a word for each door, 0
// while it is shut and one more than the first round that it opens in. `doors_open` and `keys_held` ask each other;
// `rounds` repeats the product and stops when no key is added.

#![tactic(auto)]

ghost use Rattle.std.specs.Prelude.{◌+◌, ◌≤◌, ◌≡◌, cond, length};
ghost use Rattle.limits.specs.Limits.{max_allowance};
ghost use Rattle.conditions.specs.Tests.{◌and◌};
ghost use Rattle.key_rounds.specs.Rounds.{filled, count, reached, in_hand};
ghost use Rattle.matrix.specs.Layout.{row_columns, cell_of, grid_of};
ghost use Rattle.matrix.specs.Facts.{Header, RowSpan};
ghost use Rattle.key_marks.specs.Marks.{mark, held, once, has, Below, Stamped, Stampable};
ghost use Rattle.key_marks.specs.Marks.{Lent, Asked, HandVector, HandMarked, Rounds};

// The doors that open within the allowance, from a vector of the keys in hand; whatever the two buffers held.
pub fn doors_within(
    allowance: u32,
    locks: &[u32],
    cabinets: &[u32],
    vector: &[u32],
    keys: &mut [u32],
    doors: &mut [u32],
)
    requires asked { Asked locks.now cabinets.now vector.now keys.old doors.old }
    requires allowed { allowance ≤ max_allowance }
    ensures { Rounds (grid_of locks.now) (grid_of cabinets.now)
        (in_hand (grid_of vector.now)) allowance (allowance + 1) keys.new doors.new }
{
    mark_hand(vector, keys, doors);
    rounds(allowance, locks, cabinets, keys, doors);
}

// The same, by the two that ask each other.
// Kept: one body for both would be longer, as they differ in the function that they call.
pub fn doors_asked(
    allowance: u32,
    locks: &[u32],
    cabinets: &[u32],
    vector: &[u32],
    keys: &mut [u32],
    doors: &mut [u32],
)
    requires asked { Asked locks.now cabinets.now vector.now keys.old doors.old }
    requires allowed { allowance ≤ max_allowance }
    ensures { Rounds (grid_of locks.now) (grid_of cabinets.now)
        (in_hand (grid_of vector.now)) allowance (allowance + 1) keys.new doors.new }
{
    mark_hand(vector, keys, doors);
    doors_open(allowance, locks, cabinets, keys, doors);
}

// The keys in hand are marked, and all doors shut.
fn mark_hand(vector: &[u32], keys: &mut [u32], doors: &mut [u32])
    requires { HandVector vector.now keys.old }
    ensures { HandMarked vector.now keys.old doors.old keys.new
        doors.new }
{
    words::clear(keys);
    words::clear(doors);
    mark_row(matrix::row_columns(vector, 0), 1, keys);
}

// Which doors the keys after round n open, and the first round of each; the keys after round n are left beside them.
#[cycle(doors_open_keys_held)]
pub fn doors_open(n: u32, locks: &[u32], cabinets: &[u32], keys: &mut [u32], doors: &mut [u32])
    requires lent { Lent locks.now cabinets.now keys.old doors.old }
    requires allowed { n ≤ max_allowance }
    ensures { Rounds (grid_of locks.now) (grid_of cabinets.now) (held keys.old)
        n (n + 1) keys.new doors.new }
{
    keys_held(n, locks, cabinets, keys, doors);
    mark_rows(locks, keys, n + 1, doors);
}

// Which keys are held after round n: those after the round before, and those behind the doors that it opened.
#[cycle(doors_open_keys_held)]
pub fn keys_held(n: u32, locks: &[u32], cabinets: &[u32], keys: &mut [u32], doors: &mut [u32])
    requires lent { Lent locks.now cabinets.now keys.old doors.old }
    requires allowed { n ≤ max_allowance }
    ensures { Rounds (grid_of locks.now) (grid_of cabinets.now) (held keys.old)
        n n keys.new doors.new }
{
    if n > 0 {
        doors_open(n - 1, locks, cabinets, keys, doors);
        mark_rows(cabinets, doors, 1, keys);
    }
}

// The same by rounds, one after another, until the allowance is used or no key is added.
pub fn rounds(allowance: u32, locks: &[u32], cabinets: &[u32], keys: &mut [u32], doors: &mut [u32])
    requires lent { Lent locks.now cabinets.now keys.old doors.old }
    requires allowed { allowance ≤ max_allowance }
    ensures { Rounds (grid_of locks.now) (grid_of cabinets.now) (held keys.old)
        allowance (allowance + 1) keys.new doors.new }
{
    mark_rows(locks, keys, 1, doors);
    for n in 0..allowance {
        let before = count_marks(keys);
        mark_rows(cabinets, doors, 1, keys);
        if count_marks(keys) == before {
            return;
        }
        mark_rows(locks, keys, n + 2, doors);
    }
}

// How many words are marked.
// Added up as numbers: `filter` and `count` would jump on every word.
fn count_marks(words: &[u32]) -> usize
    ensures { result ≡ count (length words.now) (held words.now) }
{
    words.iter().map(|word| usize::from(*word != 0)).sum()
}

// Stamps the columns that the rows named by `from` have entries in.
fn mark_rows(m: &[u32], from: &[u32], stamp: u32, marks: &mut [u32])
    requires { Stampable m.now from.now stamp marks.old }
    ensures { Stamped stamp (reached (grid_of m.now) (held from.now)) marks.old
        marks.new }
{
    for (i, &named) in from.iter().enumerate() {
        mark_named(m, i, named, stamp, marks);
    }
}

// Stamps the columns of row i where it is named.
fn mark_named(m: &[u32], i: usize, named: u32, stamp: u32, marks: &mut [u32])
    requires header { Header m.now }
    requires row { RowSpan m.now i }
    requires places { Below (length marks.old) (row_columns m.now i) }
    requires marking { 1 ≤ stamp }
    ensures { Stamped stamp (λ j. mark named and filled (cell_of m.now i j)) marks.old
        marks.new }
{
    if named != 0 {
        mark_row(matrix::row_columns(m, i), stamp, marks);
    }
}

// Stamps the places that the column numbers name.
fn mark_row(columns: &[u32], stamp: u32, marks: &mut [u32])
    requires places { Below (length marks.old) columns.now }
    requires marking { 1 ≤ stamp }
    ensures { Stamped stamp (has columns.now) marks.old marks.new }
{
    for &column in columns {
        let j = column as usize;
        marks[j] = stamp_once(marks[j], stamp);
    }
}

// A word that is marked stays; another takes the stamp.
#[tactic(auto, unfolding(crate::specs::Marks::once))]
fn stamp_once(word: u32, stamp: u32) -> u32
    ensures { result ≡ once stamp word }
{
    if word == 0 { stamp } else { word }
}
