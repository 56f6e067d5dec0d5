// The operations on the slots of a store. Any words and any numbers may be lent; one slot may have several roles,
// and all are read before C is written. A refused call changes no word of the store, and every call leaves the
// workspace all zeros.

#![tactic(auto)]

ghost use Rattle.std.specs.Prelude.{◌≡◌, cond, length, replicate};
ghost use Rattle.answers.specs.Results.{code_of, answer};
ghost use Rattle.refusals.specs.Cases.{first_applying};
ghost use Rattle.slots.specs.Facts.{Store};
ghost use Rattle.model.specs.Effects.{wrote};
ghost use Rattle.model.specs.Calls.{roles_of, operate, no_slot, no_grid, role_cases};
ghost use Rattle.store_encoding.specs.Stores.{model_of, Performed};
ghost use Rattle.store_calls.specs.Attempts.{asked, Operated, roles_refusal, InStore, Holding, Evaluation, ToCommit, Committed};

use answers::Refusal;
use call_codes::{Options, Verb};
use limits::SLOTS;
use matrix::layout::FIXED_WORDS;
use model::Roles;
use operations::Call;
use products::Engine;

// Any operation, by its verb and the slots that it names: its numbers and its roles are decoded, it is attempted, and the
// workspace is cleared. Where it has no second input, no mask or no index lists, any slot and any words may stand for
// them: they are not looked at.
pub fn operate(
    store: &mut [u32],
    options: Options,
    verb: Verb,
    named: Roles,
    is: &[u32],
    js: &[u32],
    work: &mut [u32],
) -> Result<u32, Refusal>
    ensures { (Performed store.old (operate options verb named is.now js.now
        (length work.old)) (wrote (answer result)) store.new) × (work.new ≡ replicate (length work.old) 0) }
{
    operate_with(store, options, verb, named, is, js, work, Engine::ByEntries)
}

// The same with either engine of the product.
pub fn operate_with(
    store: &mut [u32],
    options: Options,
    verb: Verb,
    named: Roles,
    is: &[u32],
    js: &[u32],
    work: &mut [u32],
    engine: Engine,
) -> Result<u32, Refusal>
    ensures performed { Performed store.old (operate options verb named is.now js.now
        (length work.old)) (wrote (answer result)) store.new }
    ensures cleared { work.new ≡ replicate (length work.old) 0 }
{
    let call = call_codes::decode(options, verb);
    let roles = roles_of(call, named);
    let answer = attempt(store, call, roles, is, js, work, engine);
    words::clear(work);
    answer
}

fn roles_of(call: Call, named: Roles) -> Roles
    ensures { result ≡ roles_of call named }
{
    Roles {
        first: named.first,
        second: choose(
            requests::has_second(call.operation),
            named.second,
            named.first,
        ),
        mask: choose(call.has_mask, named.mask, named.output),
        output: named.output,
    }
}

fn choose(there: bool, x: usize, y: usize) -> usize
    ensures { result ≡ cond there x y }
{
    if there { x } else { y }
}

// The refusals in their order, and the final C put into its slot where none applies.
fn attempt(
    store: &mut [u32],
    call: Call,
    roles: Roles,
    is: &[u32],
    js: &[u32],
    work: &mut [u32],
    engine: Engine,
) -> Result<u32, Refusal>
    ensures { Operated store.old (asked call roles is.now js.now
        (length work.old)) (answer result) store.new }
{
    let end = slots::check(&store[..])?;
    roles_refusal(&store[..], call, roles)?;
    let n = evaluate(&store[..], call, roles, is, js, work, engine)?;
    commit(store, roles.output, end, &work[..], n)
}

// 12 for slots past the last, 1 and 2, and 13 for empty slots.
fn roles_refusal(store: &[u32], call: Call, roles: Roles) -> Result<(), Refusal>
    requires { Store store.now }
    ensures { code_of result ≡ roles_refusal (model_of store.now) call roles }
{
    slots_refusal(roles)?;
    requests::numbers_refusal(call).and(vacancy_refusal(store, roles))
}

// 12: a slot past the last.
fn slots_refusal(roles: Roles) -> Result<(), Refusal>
    ensures { code_of result ≡ first_applying (role_cases no_slot roles) }
{
    if SLOTS <= roles.first {
        return Err(Refusal::InvalidStore);
    }
    if SLOTS <= roles.second {
        return Err(Refusal::InvalidStore);
    }
    if SLOTS <= roles.mask {
        return Err(Refusal::InvalidStore);
    }
    if SLOTS <= roles.output {
        return Err(Refusal::InvalidStore);
    }
    Ok(())
}

// 13: an empty slot.
fn vacancy_refusal(store: &[u32], roles: Roles) -> Result<(), Refusal>
    requires store { Store store.now }
    requires roles { InStore roles }
    ensures { code_of result ≡ first_applying (role_cases (no_grid (model_of store.now)) roles) }
{
    if slots::contents(store, roles.first).is_empty() {
        return Err(Refusal::EmptySlot);
    }
    if slots::contents(store, roles.second).is_empty() {
        return Err(Refusal::EmptySlot);
    }
    if slots::contents(store, roles.mask).is_empty() {
        return Err(Refusal::EmptySlot);
    }
    if slots::contents(store, roles.output).is_empty() {
        return Err(Refusal::EmptySlot);
    }
    Ok(())
}

// The final C from the slots, which are only read, at the front of the workspace, with the revision after that of C: the
// number of its entries, or a refusal.
fn evaluate(
    store: &[u32],
    call: Call,
    roles: Roles,
    is: &[u32],
    js: &[u32],
    work: &mut [u32],
    engine: Engine,
) -> Result<usize, Refusal>
    requires store { Store store.now }
    requires holding { Holding store.now roles }
    ensures { Evaluation result (model_of store.now)
        (asked call roles is.now js.now (length work.old)) work.new }
{
    let a = slots::contents(store, roles.first);
    let b = slots::contents(store, roles.second);
    let mask = slots::contents(store, roles.mask);
    let c = slots::contents(store, roles.output);
    requests::agreement_refusal(call, a, b, mask, c, is, js, work.len())?;
    let n = compute::compute(call, a, b, mask, c, is, js, work, engine)?;
    matrix::set_revision(work, matrix::next_revision(matrix::revision(c)));
    Ok(n)
}

// The matrix of n entries at the front of the workspace takes the place of a slot's, if there is room.
fn commit(
    store: &mut [u32],
    slot: usize,
    end: usize,
    work: &[u32],
    n: usize,
) -> Result<u32, Refusal>
    requires { ToCommit store.old slot end work.now n }
    ensures { Committed store.old slot work.now n (answer result) store.new }
{
    let rows = matrix::row_count(slots::contents(&store[..], slot)) as usize;
    let size = rows + n + n + FIXED_WORDS;
    if !slots::put(store, slot, end, &work[..size]) {
        return Err(Refusal::InsufficientSpace);
    }
    Ok(n as u32)
}
