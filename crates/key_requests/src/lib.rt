// The refusals of "keys behind doors" (document 02, A13) that are looked at before it is worked out: 3 to 5, 7, 8 and
// 9, in this order.

#![tactic(auto)]

ghost use Rattle.std.specs.Prelude.{◌≡◌};
ghost use Rattle.answers.specs.Results.{code_of};
ghost use Rattle.matrix.specs.Layout.{grid_of};
ghost use Rattle.matrix.specs.Facts.{Header};
ghost use Rattle.key_requests.specs.Refusal.{shapes_fit, input_refusal};

use answers::Refusal;
use limits::MAX_ALLOWANCE;
use matrix::layout::WORKSPACE_WORDS;

// The lowest of the refusals 3 to 9 that applies. The vector of the keys in hand is the third input, whose number
// is a mask's elsewhere.
#[tactic(auto, unfolding(crate::specs::Refusal::input_refusal))]
pub fn input_refusal(
    allowance: u32,
    locks: &[u32],
    cabinets: &[u32],
    hand: &[u32],
    work: usize,
) -> Result<(), Refusal>
    ensures { code_of result ≡ input_refusal allowance locks.now cabinets.now hand.now
        work }
{
    if !matrix::is_valid(locks) {
        return Err(Refusal::InvalidFirst);
    }
    if !matrix::is_valid(cabinets) {
        return Err(Refusal::InvalidSecond);
    }
    if !matrix::is_valid(hand) {
        return Err(Refusal::InvalidMask);
    }
    if MAX_ALLOWANCE < allowance {
        return Err(Refusal::IndexOutOfBounds);
    }
    if !shapes_fit(locks, cabinets, hand) {
        return Err(Refusal::InvalidShape);
    }
    if work < WORKSPACE_WORDS {
        return Err(Refusal::WorkspaceTooShort);
    }
    Ok(())
}

// Keys by doors, doors by keys, and a vector of keys.
fn shapes_fit(locks: &[u32], cabinets: &[u32], hand: &[u32]) -> bool
    requires locks_header { Header locks.now }
    requires cabinets_header { Header cabinets.now }
    requires hand_header { Header hand.now }
    ensures { result ≡ shapes_fit (grid_of locks.now) (grid_of cabinets.now)
        (grid_of hand.now) }
{
    matrix::row_count(cabinets) == matrix::col_count(locks)
        && matrix::col_count(cabinets) == matrix::row_count(locks)
        && matrix::row_count(hand) == 1
        && matrix::col_count(hand) == matrix::row_count(locks)
}
