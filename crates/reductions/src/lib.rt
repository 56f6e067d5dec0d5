// Values added up with a monoid (document 02, A4: "reduce by a monoid").

#![tactic(auto)]

ghost use Rattle.std.specs.Prelude.{◌≡◌};
ghost use Rattle.reductions.specs.Reductions.{identity_word, total, reduced};

use grid::Cell;
use operators::{BinaryOp, Monoid};

// The identity of a monoid: 0, 1, the largest value, the smallest.
pub fn identity(m: Monoid) -> u32
    ensures { result ≡ identity_word m }
{
    match m {
        Monoid::Plus => 0,
        Monoid::Times => 1,
        Monoid::Min => 2147483647,
        Monoid::Max => 2147483648,
    }
}

// x and then each of the values, from the first to the last, by an operator.
pub fn add_up(op: BinaryOp, x: u32, values: &[u32]) -> u32
    ensures { result ≡ total op x values.now }
{
    values
        .iter()
        .fold(x, |sum, y| operators::apply_binary(op, sum, *y))
}

// All values added up, or none where there are none.
pub fn reduce_values(m: Monoid, values: &[u32]) -> Cell
    ensures { result ≡ reduced m values.now }
{
    match values.split_first() {
        None => None,
        Some((first, others)) => Some(add_up(operators::monoid_op(m), *first, others)),
    }
}
