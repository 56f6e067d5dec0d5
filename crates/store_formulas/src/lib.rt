// A formula over the slots of a store, whose result takes the place of what a slot holds (document 02, A8). Any words,
// any numbers and any text may be lent. A refused call changes no word of the store, and every call leaves the stack
// all zeros.

#![tactic(auto)]

ghost use Rattle.std.specs.Prelude.{◌≡◌, not, length, replicate};
ghost use Rattle.answers.specs.Results.{code_of, answer};
ghost use Rattle.refusals.specs.Cases.{first_applying};
ghost use Rattle.slots.specs.Facts.{Store};
ghost use Rattle.model.specs.Effects.{wrote};
ghost use Rattle.model.specs.Formulas.{vacant_byte, names_vacant};
ghost use Rattle.model.specs.Calls.{formula_into};
ghost use Rattle.store_encoding.specs.Stores.{model_of, Performed};
ghost use Rattle.store_formulas.specs.Attempts.{asked, early_cases, Evaluable, value_on, Valued, ToCommit, Committed};

use answers::Refusal;
use formula_texts::{FIRST_DIGIT, LAST_DIGIT, MAX_BRACKETS};
use limits::{MIN_STACK_WORDS, SLOTS};

// The formula's result takes the place of the target's matrix, if any: its number of entries. Refused by 12, 2, 14, 13
// of a slot that the text names, 9, the first failing step's 8 or 10, and 11.
pub fn formula(
    store: &mut [u32],
    target: usize,
    monoid: u32,
    op: u32,
    text: &[u8],
    stack: &mut [u32],
) -> Result<u32, Refusal>
    ensures performed { Performed store.old (formula_into target monoid op text.now
        (length stack.old)) (wrote (answer result)) store.new }
    ensures cleared { stack.new ≡ replicate (length stack.old) 0 }
{
    let answer = attempt(store, target, monoid, op, text, stack);
    words::clear(stack);
    answer
}

// The refusals in their order, and the result put into its slot where none applies.
fn attempt(
    store: &mut [u32],
    target: usize,
    monoid: u32,
    op: u32,
    text: &[u8],
    stack: &mut [u32],
) -> Result<u32, Refusal>
    ensures { Performed store.old (formula_into target monoid op text.now
        (length stack.old)) (wrote (answer result)) store.new }
{
    let end = slots::check(store)?;
    early_refusal(store, target, monoid, op, text, stack.len())?;
    evaluate(store, monoid, op, text, stack)?;
    commit(store, target, end, stack)
}

// 12, 2, 14, 13 and 9: what is looked at before the formula is worked out.
fn early_refusal(
    store: &[u32],
    target: usize,
    monoid: u32,
    op: u32,
    text: &[u8],
    stack: usize,
) -> Result<(), Refusal>
    requires { Store store.now }
    ensures { code_of result ≡ first_applying (early_cases (model_of store.now)
        (asked target monoid op text.now stack)) }
{
    if SLOTS <= target {
        return Err(Refusal::InvalidStore);
    }
    if !call_codes::semiring_known(monoid, op) {
        return Err(Refusal::UnknownOperator);
    }
    if !formula_texts::accepts(text) {
        return Err(Refusal::InvalidFormula);
    }
    if !all_held(text, store) {
        return Err(Refusal::EmptySlot);
    }
    if stack < MIN_STACK_WORDS {
        return Err(Refusal::WorkspaceTooShort);
    }
    Ok(())
}

// Whether every slot that a digit of the text names holds a matrix.
fn all_held(text: &[u8], store: &[u32]) -> bool
    requires { Store store.now }
    ensures { result ≡ not (names_vacant (model_of store.now) text.now) }
{
    text.iter().all(|x| byte_held(*x, store))
}

// Whether the slot that the byte names, if it is a digit, holds a matrix.
fn byte_held(x: u8, store: &[u32]) -> bool
    requires { Store store.now }
    ensures { result ≡ not (vacant_byte (model_of store.now) x) }
{
    !(FIRST_DIGIT..=LAST_DIGIT).contains(&x)
        || !slots::contents(store, usize::from(x - FIRST_DIGIT)).is_empty()
}

// The value of the text, at the front of the stack, with the semiring's numbers decoded.
fn evaluate(
    store: &[u32],
    monoid: u32,
    op: u32,
    text: &[u8],
    stack: &mut [u32],
) -> Result<usize, Refusal>
    requires { Evaluable store.now monoid op text.now stack.old }
    ensures { Valued (value_on store.now monoid op text.now) stack.new result }
{
    let adding = operator_codes::monoid_code(monoid);
    let Some(add) = adding else {
        return Err(Refusal::InvalidFormula);
    };
    let multiplying = operator_codes::binary_code(op);
    let Some(multiply) = multiplying else {
        return Err(Refusal::InvalidFormula);
    };
    formula_evaluation::formula(add, multiply, text, 0, MAX_BRACKETS, store, stack)
}

// The matrix at the front of the stack takes the place of the target's, if there is room.
fn commit(store: &mut [u32], target: usize, end: usize, stack: &[u32]) -> Result<u32, Refusal>
    requires { ToCommit store.old target end stack.now }
    ensures { Committed store.old target stack.now (answer result) store.new }
{
    let size = matrix::size(stack);
    if slots::put(store, target, end, &stack[..size]) {
        Ok(matrix::entry_count(stack))
    } else {
        Err(Refusal::InsufficientSpace)
    }
}
