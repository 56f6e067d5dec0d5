// The operators by number (document 01, "Operators"). A number that stands for no operator is answered by None.

#![tactic(auto)]

ghost use Rattle.std.specs.Prelude.{◌≡◌};
ghost use Rattle.operator_codes.specs.Codes.{binary_numbered, monoid_numbered, unary_numbered};
ghost use Rattle.operator_codes.specs.Codes.{index_unary_numbered, apply_numbered, select_numbered};

use operators::{ApplyOp, BinaryOp, IndexUnaryOp, Monoid, UnaryOp};
use select_ops::SelectOp;

// The binary operator of a number, 0 to 7.
pub fn binary_code(number: u32) -> Option<BinaryOp>
    ensures { result ≡ binary_numbered number }
{
    match number {
        0 => Some(BinaryOp::First),
        1 => Some(BinaryOp::Second),
        2 => Some(BinaryOp::Oneb),
        3 => Some(BinaryOp::Plus),
        4 => Some(BinaryOp::Minus),
        5 => Some(BinaryOp::Times),
        6 => Some(BinaryOp::Min),
        7 => Some(BinaryOp::Max),
        _ => None,
    }
}

// The monoid of a number, which is that of its binary operator.
pub fn monoid_code(number: u32) -> Option<Monoid>
    ensures { result ≡ monoid_numbered number }
{
    match number {
        3 => Some(Monoid::Plus),
        5 => Some(Monoid::Times),
        6 => Some(Monoid::Min),
        7 => Some(Monoid::Max),
        _ => None,
    }
}

// The unary operator of a number, 0 to 4.
pub fn unary_code(number: u32) -> Option<UnaryOp>
    ensures { result ≡ unary_numbered number }
{
    match number {
        0 => Some(UnaryOp::Identity),
        1 => Some(UnaryOp::Ainv),
        2 => Some(UnaryOp::Abs),
        3 => Some(UnaryOp::Lnot),
        4 => Some(UnaryOp::One),
        _ => None,
    }
}

// The index-unary operator of a number, 0 to 2.
pub fn index_unary_code(number: u32) -> Option<IndexUnaryOp>
    ensures { result ≡ index_unary_numbered number }
{
    match number {
        0 => Some(IndexUnaryOp::RowIndex),
        1 => Some(IndexUnaryOp::ColIndex),
        2 => Some(IndexUnaryOp::DiagIndex),
        _ => None,
    }
}

// The apply of a kind (0 unary, 1 binary with the scalar first, 2 binary with the scalar second, 3 index-unary) and an
// operator's number in that kind. A unary operator has no use for the scalar.
pub fn apply_code(kind: u32, number: u32, scalar: u32) -> Option<ApplyOp>
    ensures { result ≡ apply_numbered kind number scalar }
{
    match kind {
        0 => unary_code(number).map(ApplyOp::Unary),
        1 => binary_code(number).map(|op| ApplyOp::BinaryScalarFirst(op, scalar)),
        2 => binary_code(number).map(|op| ApplyOp::BinaryScalarSecond(op, scalar)),
        3 => index_unary_code(number).map(|op| ApplyOp::IndexUnary(op, scalar)),
        _ => None,
    }
}

// The condition of a number, 0 to 7, with its scalar.
pub fn select_code(number: u32, scalar: u32) -> Option<SelectOp>
    ensures { result ≡ select_numbered number scalar }
{
    match number {
        0 => Some(SelectOp::ValueEq(scalar)),
        1 => Some(SelectOp::ValueNe(scalar)),
        2 => Some(SelectOp::ValueLt(scalar)),
        3 => Some(SelectOp::ValueLe(scalar)),
        4 => Some(SelectOp::ValueGt(scalar)),
        5 => Some(SelectOp::ValueGe(scalar)),
        6 => Some(SelectOp::Tril(scalar)),
        7 => Some(SelectOp::Triu(scalar)),
        _ => None,
    }
}
