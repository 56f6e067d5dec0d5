// The numbers of a call, decoded: flags, operators, monoid and accumulator come as numbers. An unknown number only sets
// `known` to false; the operator that stands for it is never used.

#![tactic(auto)]

ghost use Rattle.std.specs.Prelude.{◌≡◌, is_some};
ghost use Rattle.conditions.specs.Tests.{◌and◌};
ghost use Rattle.operator_codes.specs.Codes.{binary_numbered, monoid_numbered};
ghost use Rattle.call_codes.specs.Decoding.{binary_of, monoid_of, accumulator_known, accumulator_of, call_of};
ghost use Rattle.call_codes.specs.Decoding.{product_call, apply_call, select_call, reduce_rows_call, assign_call, decoded};
ghost use Rattle.call_codes.specs.Decoding.{BinaryCall};

use operations::{Accumulator, Call, Operation};
use operators::{ApplyOp, BinaryOp, Monoid, UnaryOp};
use select_ops::SelectOp;

// What a call says beside its inputs: the flags, whether there is a mask, and the accumulator's number, if there is one.
#[derive(Clone, Copy, Debug, PartialEq, Eq)]
pub struct Options {
    pub flags: u32,
    pub has_mask: bool,
    pub accumulator: Option<u32>,
}

// What a call computes, by its numbers as they come: for a product a monoid and an operator, for apply a kind, an operator
// of that kind and a scalar, for select a condition and a scalar, for the reduction of rows a monoid, for the Kronecker
// product an operator.
#[derive(Clone, Copy, Debug, PartialEq, Eq)]
pub enum Verb {
    Mxm(u32, u32),
    Vxm(u32, u32),
    EwiseMult(u32),
    EwiseAdd(u32),
    Apply(u32, u32, u32),
    Extract,
    Select(u32, u32),
    ReduceRows(u32),
    Assign,
    Kronecker(u32),
}

// A call with its numbers decoded.
pub fn decode(options: Options, verb: Verb) -> Call
    ensures { result ≡ decoded options verb }
{
    match verb {
        Verb::Mxm(monoid, op) => product_call(false, options, monoid, op),
        Verb::Vxm(monoid, op) => product_call(true, options, monoid, op),
        Verb::EwiseMult(op) => binary_call(options, op, Operation::EwiseMult),
        Verb::EwiseAdd(op) => binary_call(options, op, Operation::EwiseAdd),
        Verb::Apply(kind, op, scalar) => apply_call(options, kind, op, scalar),
        Verb::Extract => call_of(options, true, Operation::Extract, false),
        Verb::Select(op, scalar) => select_call(options, op, scalar),
        Verb::ReduceRows(monoid) => reduce_rows_call(options, monoid),
        Verb::Assign => assign_call(options),
        Verb::Kronecker(op) => binary_call(options, op, Operation::Kronecker),
    }
}

// The operator of a number, or FIRST where the number is none's.
fn binary_of(number: u32) -> BinaryOp
    ensures { result ≡ binary_of (binary_numbered number) }
{
    operator_codes::binary_code(number).unwrap_or(BinaryOp::First)
}

// The monoid of a number, or PLUS where the number is none's.
fn monoid_of(number: u32) -> Monoid
    ensures { result ≡ monoid_of (monoid_numbered number) }
{
    operator_codes::monoid_code(number).unwrap_or(Monoid::Plus)
}

// Whether the accumulator's number is an operator's, where there is an accumulator.
fn accumulator_known(options: Options) -> bool
    ensures { result ≡ accumulator_known options }
{
    match options.accumulator {
        None => true,
        Some(number) => operator_codes::binary_code(number).is_some(),
    }
}

fn accumulator_of(options: Options) -> Accumulator
    ensures { result ≡ accumulator_of options }
{
    options.accumulator.map(binary_of)
}

// A call, where the operator's own numbers are known or not.
fn call_of(options: Options, known: bool, operation: Operation, vector_first: bool) -> Call
    ensures { result ≡ call_of options known operation vector_first }
{
    Call {
        flags: options.flags,
        known: known && accumulator_known(options),
        operation,
        vector_first,
        has_mask: options.has_mask,
        accumulator: accumulator_of(options),
    }
}

fn product_call(vector: bool, options: Options, monoid: u32, op: u32) -> Call
    ensures { result ≡ product_call vector options monoid op }
{
    let operation = Operation::Mxm(monoid_of(monoid), binary_of(op));
    call_of(options, semiring_known(monoid, op), operation, vector)
}

// Whether the numbers are those of a semiring: any monoid with any binary operator.
pub fn semiring_known(monoid: u32, op: u32) -> bool
    ensures { result ≡ (is_some (monoid_numbered monoid) and is_some (binary_numbered op)) }
{
    operator_codes::monoid_code(monoid).is_some() && operator_codes::binary_code(op).is_some()
}

// A call of an operation that has one binary operator.
fn binary_call<F: FnOnce(BinaryOp) -> Operation>(options: Options, op: u32, operation: F) -> Call
    requires { F.IsAlwaysCallable operation }
    ensures { BinaryCall (F.post operation) options op result }
{
    let known = operator_codes::binary_code(op).is_some();
    call_of(options, known, operation(binary_of(op)), false)
}

fn apply_call(options: Options, kind: u32, op: u32, scalar: u32) -> Call
    ensures { result ≡ apply_call options kind op scalar }
{
    let code = operator_codes::apply_code(kind, op, scalar);
    let operation = Operation::Apply(code.unwrap_or(ApplyOp::Unary(UnaryOp::Identity)));
    call_of(options, code.is_some(), operation, false)
}

fn select_call(options: Options, op: u32, scalar: u32) -> Call
    ensures { result ≡ select_call options op scalar }
{
    let code = operator_codes::select_code(op, scalar);
    let operation = Operation::Select(code.unwrap_or(SelectOp::ValueEq(0)));
    call_of(options, code.is_some(), operation, false)
}

fn reduce_rows_call(options: Options, monoid: u32) -> Call
    ensures { result ≡ reduce_rows_call options monoid }
{
    let known = operator_codes::monoid_code(monoid).is_some();
    call_of(
        options,
        known,
        Operation::ReduceRows(monoid_of(monoid)),
        false,
    )
}

// An assign is told the accumulator of its call.
fn assign_call(options: Options) -> Call
    ensures { result ≡ assign_call options }
{
    call_of(
        options,
        true,
        Operation::Assign(accumulator_of(options)),
        false,
    )
}
