// The order of column numbers, tested without a look at the rows: whether all are below a bound, and how often a number is
// not above the one before it. Neither loop stops early, so that both go over several words at a time.

#![tactic(auto)]

ghost use Rattle.std.specs.Prelude.{◌≡◌, ◌+◌, ◌≤◌, length};
ghost use Rattle.limits.specs.Limits.{max_entries};
ghost use Rattle.column_order.specs.Falls.{all_below, falls};

// Whether all column numbers are below the bound. The flag comes last in the test: the loop then has no branch.
pub fn all_below(columns: &[u32], bound: u32) -> bool
    ensures { result ≡ all_below bound columns.now }
{
    columns
        .iter()
        .fold(true, |below, &column| column < bound && below)
}

// How often a word is not above the one before it.
pub fn fall_count(words: &[u32]) -> u32
    requires { length words.now ≤ max_entries + 1 }
    ensures { result ≡ falls words.now }
{
    let mut falls = 0;
    for pair in words.windows(2) {
        falls += u32::from(pair[1] <= pair[0]);
    }
    falls
}
