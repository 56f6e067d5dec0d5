// "Keys behind doors" (document 02, A13) on lent matrices. Any words and any numbers may be lent: a call gives the
// number of doors in the vector that it has written, or the lowest refusal that applies. A refused call
// changes no word but the workspace's, and every call leaves the workspace all zeros.

#![tactic(auto)]

ghost use Rattle.std.specs.Prelude.{◌≤◌, length};
ghost use Rattle.limits.specs.Limits.{max_cols};
ghost use Rattle.answers.specs.Results.{answer};
ghost use Rattle.matrix.specs.Layout.{size_of};
ghost use Rattle.key_calls.specs.Doors.{Attempted, Completed, Committed};

use answers::Refusal;
use door_vectors::Program;
use matrix::layout::FIXED_WORDS;

// The doors that open within the allowance, each with its first round, as a vector in `out`, whatever that held.
// `locks` has a row for each key and a column for each door that it opens, `cabinets` a row for each door and a
// column for each key behind it, and `hand` is the vector of the keys in hand; entries count whatever their value.
// Refusals: 3 locks, 4 cabinets, 5 hand, 7 an allowance above 1,000, 8 shapes, 9 the workspace, 11 the buffer.
pub fn open_doors(
    allowance: u32,
    locks: &[u32],
    cabinets: &[u32],
    hand: &[u32],
    out: &mut [u32],
    work: &mut [u32],
) -> Result<u32, Refusal>
    ensures { Completed allowance locks.now cabinets.now hand.now
        out.old work.old (answer result) out.new work.new }
{
    complete(Program::Rounds, allowance, locks, cabinets, hand, out, work)
}

// The same by the two questions that ask each other, for comparison: it goes through every round of the allowance, and
// its stack grows with them.
pub fn ask_doors(
    allowance: u32,
    locks: &[u32],
    cabinets: &[u32],
    hand: &[u32],
    out: &mut [u32],
    work: &mut [u32],
) -> Result<u32, Refusal>
    ensures { Completed allowance locks.now cabinets.now hand.now
        out.old work.old (answer result) out.new work.new }
{
    complete(
        Program::Questions,
        allowance,
        locks,
        cabinets,
        hand,
        out,
        work,
    )
}

// The call is attempted, and the workspace is cleared.
fn complete(
    program: Program,
    allowance: u32,
    locks: &[u32],
    cabinets: &[u32],
    hand: &[u32],
    out: &mut [u32],
    work: &mut [u32],
) -> Result<u32, Refusal>
    ensures { Completed allowance locks.now cabinets.now hand.now
        out.old work.old (answer result) out.new work.new }
{
    let attempted = attempt(program, allowance, locks, cabinets, hand, out, work);
    words::clear(work);
    attempted
}

// The refusals in their order, and the vector written where none applies.
fn attempt(
    program: Program,
    allowance: u32,
    locks: &[u32],
    cabinets: &[u32],
    hand: &[u32],
    out: &mut [u32],
    work: &mut [u32],
) -> Result<u32, Refusal>
    ensures { Attempted allowance locks.now cabinets.now hand.now
        out.old (length work.old) (answer result) out.new }
{
    key_requests::input_refusal(allowance, locks, cabinets, hand, work.len())?;
    let n = door_vectors::door_vector(program, allowance, locks, cabinets, hand, work);
    commit(out, &work[..], n)
}

// The vector of n entries at the front of the workspace is copied over `out`, if it fits.
fn commit(out: &mut [u32], work: &[u32], n: usize) -> Result<u32, Refusal>
    requires few { n ≤ max_cols }
    requires size { size_of 1 n ≤ length work.now }
    ensures { Committed out.old work.now n (answer result) out.new }
{
    let size = 1 + 2 * n + FIXED_WORDS;
    if out.len() < size {
        return Err(Refusal::InsufficientSpace);
    }
    words::copy_into(out, 0, &work[..size]);
    Ok(n as u32)
}
