// The refusals of a call on lent matrices that are looked at before it is worked out (1 to 9), in their order.

#![tactic(auto)]

ghost use Rattle.std.specs.Prelude.{◌≡◌, true, cond, ◌≤◌, ◌<◌, eqb, length};
ghost use Rattle.answers.specs.Results.{code_of};
ghost use Rattle.limits.specs.Limits.{max_cols};
ghost use Rattle.conditions.specs.Tests.{◌and◌, all};
ghost use Rattle.matrix.specs.Layout.{grid_of};
ghost use Rattle.matrix.specs.Valid.{valid};
ghost use Rattle.matrix.specs.Facts.{Matrix};
ghost use Rattle.operations.specs.Calls.{flag_set, transpose_first, transpose_second, has_second, has_lists, call_shapes};
ghost use Rattle.operations.specs.Calls.{index_fits, list_valid, lists_valid, matches, inputs_agree, shapes_meet};
ghost use Rattle.operations.specs.Lists.{Small};
ghost use Rattle.operations.specs.GridOperations.{oriented, shape_of, no_shape};
ghost use Rattle.refusals.specs.Cases.{numbers_refusal, agreement_refusal};
ghost use Rattle.requests.specs.Refusal.{matrices_refusal, input_refusal};
ghost use Rattle.requests.specs.Inputs.{Valid};
ghost use Rattle.requests.specs.Lists.{Seen};

use answers::Refusal;
use bit_rows::MAP_WORDS;
use limits::{MAX_FLAGS, MAX_LIST};
use matrix::layout::{COLS_AT, ROWS_AT, WORKSPACE_WORDS};
use operations::{Call, Needs, Operation, Shape, Shapes};

// The lowest of the refusals 1 to 9 that applies.
pub fn input_refusal(
    call: Call,
    a: &[u32],
    b: &[u32],
    mask: &[u32],
    c: &[u32],
    is: &[u32],
    js: &[u32],
    work: usize,
) -> Result<(), Refusal>
    ensures { code_of result ≡ input_refusal call a.now b.now mask.now c.now
        is.now js.now work }
{
    numbers_refusal(call)?;
    matrices_refusal(call, a, b, mask, c)?;
    agreement_refusal(call, a, b, mask, c, is, js, work)
}

// 1 and 2: the flags and the operators.
#[tactic(auto, using(std::proofs::lemmas::Bool::Decides::nat_tests), unfolding(refusals::specs::Cases::numbers_refusal))]
pub fn numbers_refusal(call: Call) -> Result<(), Refusal>
    ensures { code_of result ≡ numbers_refusal call }
{
    if MAX_FLAGS < call.flags {
        return Err(Refusal::FlagsOutOfRange);
    }
    if !call.known {
        return Err(Refusal::UnknownOperator);
    }
    Ok(())
}

// 3 to 6: the matrices that the call has.
#[tactic(auto, using(crate::proofs::Tests::and_is), unfolding(crate::specs::Refusal::matrices_refusal))]
fn matrices_refusal(
    call: Call,
    a: &[u32],
    b: &[u32],
    mask: &[u32],
    c: &[u32],
) -> Result<(), Refusal>
    ensures { code_of result ≡ matrices_refusal call a.now b.now mask.now c.now }
{
    if !matrix::is_valid(a) {
        return Err(Refusal::InvalidFirst);
    }
    if !second_valid(call, b) {
        return Err(Refusal::InvalidSecond);
    }
    if !mask_valid(call, mask) {
        return Err(Refusal::InvalidMask);
    }
    if !matrix::is_valid(c) {
        return Err(Refusal::InvalidOutput);
    }
    Ok(())
}

// 7 to 9: the index lists, the shapes and the workspace.
pub fn agreement_refusal(
    call: Call,
    a: &[u32],
    b: &[u32],
    mask: &[u32],
    c: &[u32],
    is: &[u32],
    js: &[u32],
    work: usize,
) -> Result<(), Refusal>
    requires { Valid call a.now b.now mask.now c.now }
    ensures { code_of result ≡ agreement_refusal call (grid_of a.now) (grid_of b.now)
        (grid_of mask.now) (grid_of c.now) is.now js.now work }
{
    let shapes = shapes_of(call, a, b, c, is, js);
    let needs = operations::needs_of(call.operation, shapes);
    if !indexes_valid(call.operation, needs, is, js) {
        return Err(Refusal::IndexOutOfBounds);
    }
    if !shapes_agree(call, shapes, needs, mask) {
        return Err(Refusal::InvalidShape);
    }
    if work < WORKSPACE_WORDS {
        return Err(Refusal::WorkspaceTooShort);
    }
    Ok(())
}

// Whether an operation has a second input.
pub fn has_second(operation: Operation) -> bool
    ensures { result ≡ has_second operation }
{
    operations::inputs_of(operation).second
}

// Whether it has index lists.
fn has_lists(operation: Operation) -> bool
    ensures { result ≡ has_lists operation }
{
    operations::inputs_of(operation).lists
}

// Whether a flag is set.
pub fn flag_set(bit: u32, flags: u32) -> bool
    requires { 0 < bit }
    ensures { result ≡ flag_set bit flags }
{
    flags / bit % 2 == 1
}

// Whether the first input is transposed.
pub fn transpose_first(call: Call) -> bool
    ensures { result ≡ transpose_first call }
{
    !call.vector_first && flag_set(8, call.flags)
}

// Whether the second input is transposed, where there is one.
pub fn transpose_second(call: Call) -> bool
    ensures { result ≡ transpose_second call }
{
    flag_set(16, call.flags)
}

// The second input, where there is one, is a valid matrix.
fn second_valid(call: Call, b: &[u32]) -> bool
    ensures { result ≡ cond (has_second call.operation) (valid b.now) true }
{
    !has_second(call.operation) || matrix::is_valid(b)
}

// The mask, where there is one, is a valid matrix.
fn mask_valid(call: Call, mask: &[u32]) -> bool
    ensures { result ≡ cond call.has_mask (valid mask.now) true }
{
    !call.has_mask || matrix::is_valid(mask)
}

// Each index is below n, there are 1 to MAX_LIST of them, and none stands twice.
#[tactic(auto, using(crate::proofs::Tests::and_is, std::proofs::lemmas::Bool::Decides::nat_tests), unfolding(operations::specs::Calls::list_valid))]
fn list_valid(list: &[u32], n: usize) -> bool
    requires { n ≤ max_cols }
    ensures { result ≡ list_valid n list.now }
{
    let mut seen = [0u64; MAP_WORDS];
    !list.is_empty() && list.len() <= MAX_LIST && indexes_distinct(list, n, &mut seen)
}

// Each index is below n, and none stands twice: `seen` gets a mark for each, and has none at first.
fn indexes_distinct(list: &[u32], n: usize, seen: &mut [u64; MAP_WORDS]) -> bool
    requires bound { n ≤ max_cols }
    requires unmarked { Seen list.now 0 0 seen.old }
    ensures { result ≡ all (length list.now) (index_fits n list.now) }
{
    let mut top: u64 = 0;
    for index in list {
        let j = *index as usize;
        if n <= j {
            return false;
        }
        if bit_rows::mark_at(seen, j) != 0 {
            return false;
        }
        top = bit_rows::mark_column(top, seen, j);
    }
    true
}

// The index lists, where the operation has them, stay below their bounds.
fn indexes_valid(operation: Operation, needs: Needs, is: &[u32], js: &[u32]) -> bool
    requires { Small max_cols needs.bounds }
    ensures { result ≡ lists_valid operation needs.bounds is.now js.now }
{
    !has_lists(operation) || lists_valid(needs.bounds, is, js)
}

#[tactic(auto, using(crate::proofs::Tests::and_is))]
fn lists_valid(bounds: Shape, is: &[u32], js: &[u32]) -> bool
    requires { Small max_cols bounds }
    ensures { result ≡ (list_valid bounds.rows is.now and list_valid bounds.cols js.now) }
{
    list_valid(is, bounds.rows) && list_valid(js, bounds.cols)
}

// The shapes of the call.
fn shapes_of(call: Call, a: &[u32], b: &[u32], c: &[u32], is: &[u32], js: &[u32]) -> Shapes
    requires first { Matrix a.now }
    requires second { has_second call.operation ≡ true → Matrix b.now }
    requires output { Matrix c.now }
    ensures { result ≡ call_shapes call (grid_of a.now) (grid_of b.now) (grid_of c.now)
        is.now js.now }
{
    Shapes {
        first: shape_of(a, transpose_first(call)),
        second: second_shape(call, b),
        output: shape_of(c, false),
        lists: Shape {
            rows: is.len(),
            cols: js.len(),
        },
    }
}

// The shape of a valid matrix, or of its transpose.
fn shape_of(words: &[u32], transposed: bool) -> Shape
    requires { Matrix words.now }
    ensures { result ≡ shape_of (oriented transposed (grid_of words.now)) }
{
    let rows = words[ROWS_AT] as usize;
    let cols = words[COLS_AT] as usize;
    if transposed {
        Shape {
            rows: cols,
            cols: rows,
        }
    } else {
        Shape { rows, cols }
    }
}

// The shape of the second input as its flag asks, where there is one.
fn second_shape(call: Call, b: &[u32]) -> Shape
    requires { has_second call.operation ≡ true → Matrix b.now }
    ensures { result ≡ cond (has_second call.operation)
        (shape_of (oriented (transpose_second call) (grid_of b.now))) no_shape }
{
    if !has_second(call.operation) {
        return Shape { rows: 0, cols: 0 };
    }
    shape_of(b, transpose_second(call))
}

// A vector where one is due.
fn vector_agrees(call: Call, first: Shape) -> bool
    ensures { result ≡ cond call.vector_first (eqb first.rows 1) true }
{
    !call.vector_first || first.rows == 1
}

// The mask, where there is one, has C's shape.
#[tactic(auto, using(crate::proofs::Tests::and_is))]
fn mask_agrees(call: Call, mask: &[u32], c: Shape) -> bool
    requires { call.has_mask ≡ true → Matrix mask.now }
    ensures { result ≡ cond call.has_mask (matches (shape_of (grid_of mask.now)) c) true }
{
    !call.has_mask || shape_of(mask, false) == c
}

// The shapes of inputs, mask, C and T agree.
#[tactic(auto, using(crate::proofs::Tests::and_is))]
fn shapes_agree(call: Call, shapes: Shapes, needs: Needs, mask: &[u32]) -> bool
    requires { call.has_mask ≡ true → Matrix mask.now }
    ensures { result ≡ shapes_meet call shapes needs (shape_of (grid_of mask.now)) }
{
    vector_agrees(call, shapes.first)
        && inputs_agree(shapes, needs)
        && needs.result == shapes.output
        && mask_agrees(call, mask, shapes.output)
}

// The inputs have the shapes that the operation asks for.
#[tactic(auto, using(crate::proofs::Tests::and_is))]
fn inputs_agree(shapes: Shapes, needs: Needs) -> bool
    ensures { result ≡ inputs_agree shapes needs }
{
    shapes.first == needs.first && shapes.second == needs.second
}
