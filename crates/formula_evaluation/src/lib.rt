// Working out a formula over the slots of a store, from left to right. The functions read the text as the grammar has
// it and call each other; the bytes left and the bracket allowance fall. Each leaves its value at the front of the
// words that it is lent, and lends the words behind the largest matrix on to the next operand: so no word that holds a
// pending value is lent to the next operand.

#![tactic(auto)]

ghost use Rattle.std.specs.Prelude.{◌≤◌, ◌<◌, length};
ghost use Rattle.limits.specs.Limits.{slot_count};
ghost use Rattle.matrix.specs.Layout.{grid_of, max_matrix_words};
ghost use Rattle.slots.specs.Sections.{slot_at};
ghost use Rattle.slots.specs.Facts.{Held, Store};
ghost use Rattle.formula_texts.specs.Trees.{Within, TermWithin, FactorWithin};
ghost use Rattle.formula_texts.specs.Reading.{before, term_before, factor_before, FormulaStops, TermStops, FactorStops};
ghost use Rattle.formula_evaluation.specs.Evaluating.{formula_worth, formula_onto, term_worth, term_onto};
ghost use Rattle.formula_evaluation.specs.Evaluating.{factor_worth, Standing, Lent, LentOn, Evaluates, Continues};

use answers::Refusal;
use formula_steps::SECOND_AT;
use formula_texts::{CLOSE, FIRST_DIGIT, LAST_DIGIT, OPEN, PLUS, TIMES};
use operations::Operation;
use operators::{BinaryOp, Monoid};

// A formula: its first term, and those that are added. Where it ends, with its value at the front of the words;
// InvalidFormula where there is none; or the refusal of the first failing step.
#[cycle(factor_formula_more_factors_more_terms_term)]
pub fn formula(
    monoid: Monoid,
    op: BinaryOp,
    text: &[u8],
    at: usize,
    allowance: u32,
    store: &[u32],
    stack: &mut [u32],
) -> Result<usize, Refusal>
    requires { Lent 4 text.now at allowance store.now stack.old }
    ensures { Evaluates Within FormulaStops before (formula_worth monoid op store.now)
        text.now at allowance stack.new result }
{
    let p = term(monoid, op, text, at, allowance, store, stack)?;
    more_terms(monoid, op, text, p, allowance, store, stack)
}

// The terms that are added to the sum at the front.
#[cycle(factor_formula_more_factors_more_terms_term)]
fn more_terms(
    monoid: Monoid,
    op: BinaryOp,
    text: &[u8],
    at: usize,
    allowance: u32,
    store: &[u32],
    stack: &mut [u32],
) -> Result<usize, Refusal>
    requires { LentOn 4 text.now at allowance store.now stack.old }
    ensures { Continues 43 Within FormulaStops before (formula_onto monoid op store.now)
        text.now at allowance stack.old stack.new result }
{
    if formula_texts::stands(text, at, PLUS) {
        let p = term(
            monoid,
            op,
            text,
            at + 1,
            allowance,
            store,
            &mut stack[SECOND_AT..],
        )?;
        formula_steps::step(Operation::EwiseAdd(operators::monoid_op(monoid)), stack)?;
        more_terms(monoid, op, text, p, allowance, store, stack)
    } else {
        Ok(at)
    }
}

// Kept: two pairs of functions, for formulas and for terms, since their clauses speak of different trees.
// A term: its first factor, and those that it is multiplied by.
#[cycle(factor_formula_more_factors_more_terms_term)]
fn term(
    monoid: Monoid,
    op: BinaryOp,
    text: &[u8],
    at: usize,
    allowance: u32,
    store: &[u32],
    stack: &mut [u32],
) -> Result<usize, Refusal>
    requires { Lent 3 text.now at allowance store.now stack.old }
    ensures { Evaluates TermWithin TermStops term_before (term_worth monoid op store.now)
        text.now at allowance stack.new result }
{
    let p = factor(monoid, op, text, at, allowance, store, stack)?;
    more_factors(monoid, op, text, p, allowance, store, stack)
}

// The factors that the product at the front is multiplied by.
#[cycle(factor_formula_more_factors_more_terms_term)]
fn more_factors(
    monoid: Monoid,
    op: BinaryOp,
    text: &[u8],
    at: usize,
    allowance: u32,
    store: &[u32],
    stack: &mut [u32],
) -> Result<usize, Refusal>
    requires { LentOn 3 text.now at allowance store.now stack.old }
    ensures { Continues 42 TermWithin TermStops term_before (term_onto monoid op store.now)
        text.now at allowance stack.old stack.new result }
{
    if formula_texts::stands(text, at, TIMES) {
        let p = factor(
            monoid,
            op,
            text,
            at + 1,
            allowance,
            store,
            &mut stack[SECOND_AT..],
        )?;
        formula_steps::step(Operation::Mxm(monoid, op), stack)?;
        more_factors(monoid, op, text, p, allowance, store, stack)
    } else {
        Ok(at)
    }
}

// A factor: the matrix of a slot, or a formula in brackets.
#[cycle(factor_formula_more_factors_more_terms_term)]
fn factor(
    monoid: Monoid,
    op: BinaryOp,
    text: &[u8],
    at: usize,
    allowance: u32,
    store: &[u32],
    stack: &mut [u32],
) -> Result<usize, Refusal>
    requires { Lent 2 text.now at allowance store.now stack.old }
    ensures { Evaluates FactorWithin FactorStops factor_before (factor_worth monoid op store.now)
        text.now at allowance stack.new result }
{
    let Some(&x) = text.get(at) else {
        return Err(Refusal::InvalidFormula);
    };
    if x == OPEN {
        if allowance == 0 {
            return Err(Refusal::InvalidFormula);
        }
        let p = formula(monoid, op, text, at + 1, allowance - 1, store, stack)?;
        return if formula_texts::stands(text, p, CLOSE) {
            Ok(p + 1)
        } else {
            Err(Refusal::InvalidFormula)
        };
    }
    if !(FIRST_DIGIT..=LAST_DIGIT).contains(&x) {
        return Err(Refusal::InvalidFormula);
    }
    load(store, usize::from(x - FIRST_DIGIT), stack);
    Ok(at + 1)
}

// The matrix of a slot, at the front, with the revision 0 as what is made has it.
fn load(store: &[u32], slot: usize, stack: &mut [u32])
    requires store { Store store.now }
    requires slot { slot < slot_count }
    requires held { Held (slot_at store.now slot) }
    requires room { max_matrix_words ≤ length stack.old }
    ensures { Standing (grid_of (slot_at store.now slot)) stack.new }
{
    words::copy_into(stack, 0, slots::contents(store, slot));
    matrix::set_revision(stack, 0);
}
