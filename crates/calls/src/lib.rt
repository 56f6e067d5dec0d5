// The operations on lent matrices. Any words and any numbers may be lent: a call gives the number of entries of the final
// C, or the lowest refusal that applies. A refused call changes no word but the workspace's,
// and every call leaves the workspace all zeros.

#![tactic(auto)]

ghost use Rattle.std.specs.Prelude.{◌≡◌, ◌≤◌, length};
ghost use Rattle.answers.specs.Results.{answer};
ghost use Rattle.limits.specs.Limits.{max_entries};
ghost use Rattle.matrix.specs.Layout.{rows, size_of};
ghost use Rattle.matrix.specs.Facts.{Header};
ghost use Rattle.call_codes.specs.Decoding.{decoded};
ghost use Rattle.calls.specs.Completion.{Attempted, Completed, Committed};

use answers::Refusal;
use call_codes::{Options, Verb};
use matrix::layout::FIXED_WORDS;
use operations::Call;
use products::Engine;

// Any operation, by its verb: its numbers are decoded, it is attempted, and the workspace is cleared. Where it has no
// second input, no mask or no index lists, any words may stand for them: they are not looked at.
pub fn operate<'a>(
    options: Options,
    verb: Verb,
    a: &'a [u32],
    b: &'a [u32],
    mask: &[u32],
    is: &[u32],
    js: &[u32],
    c: &mut [u32],
    work: &mut [u32],
) -> Result<u32, Refusal>
    ensures { Completed (decoded options verb) a.now b.now mask.now
        c.old is.now js.now work.old (answer result) c.new work.new }
{
    operate_with(
        options,
        verb,
        a,
        b,
        mask,
        is,
        js,
        c,
        work,
        Engine::ByEntries,
    )
}

// The same with either engine of the product.
pub fn operate_with<'a>(
    options: Options,
    verb: Verb,
    a: &'a [u32],
    b: &'a [u32],
    mask: &[u32],
    is: &[u32],
    js: &[u32],
    c: &mut [u32],
    work: &mut [u32],
    engine: Engine,
) -> Result<u32, Refusal>
    ensures { Completed (decoded options verb) a.now b.now mask.now
        c.old is.now js.now work.old (answer result) c.new work.new }
{
    let call = call_codes::decode(options, verb);
    let answer = attempt(call, a, b, mask, is, js, c, work, engine);
    words::clear(work);
    answer
}

// The refusals in their order, and the final C written where none applies.
fn attempt<'a>(
    call: Call,
    a: &'a [u32],
    b: &'a [u32],
    mask: &[u32],
    is: &[u32],
    js: &[u32],
    c: &mut [u32],
    work: &mut [u32],
    engine: Engine,
) -> Result<u32, Refusal>
    ensures { Attempted call a.now b.now mask.now c.old
        is.now js.now (length work.old) (answer result) c.new }
{
    requests::input_refusal(call, a, b, mask, &c[..], is, js, work.len())?;
    let n = compute::compute(call, a, b, mask, &c[..], is, js, work, engine)?;
    commit(c, &work[..], n)
}

// The matrix of n entries at the front of the workspace is copied over C, if it fits, with the revision after that of C.
fn commit(c: &mut [u32], work: &[u32], n: usize) -> Result<u32, Refusal>
    requires header { Header c.old }
    requires few { n ≤ max_entries }
    requires written { size_of (rows c.old) n ≤ length work.now }
    ensures { Committed c.old work.now n (answer result) c.new }
{
    let size = matrix::row_count(&c[..]) as usize + n + n + FIXED_WORDS;
    if c.len() < size {
        return Err(Refusal::InsufficientSpace);
    }
    let revision = matrix::next_revision(matrix::revision(&c[..]));
    words::copy_into(c, 0, &work[..size]);
    matrix::set_revision(c, revision);
    Ok(n as u32)
}
