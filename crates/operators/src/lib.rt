// The operators of document 01 ("Operators") on words, each a signed 32-bit number in two's complement.

#![tactic(auto)]

ghost use Rattle.std.specs.Prelude.{◌≡◌};
ghost use Rattle.operators.specs.Operators.{binary_word, unary_word, index_unary_word, entry_word, monoid_op};

#[derive(Clone, Copy, Debug, PartialEq, Eq)]
pub enum BinaryOp {
    First,
    Second,
    Oneb,
    Plus,
    Minus,
    Times,
    Min,
    Max,
}

#[derive(Clone, Copy, Debug, PartialEq, Eq)]
pub enum Monoid {
    Plus,
    Times,
    Min,
    Max,
}

#[derive(Clone, Copy, Debug, PartialEq, Eq)]
pub enum UnaryOp {
    Identity,
    Ainv,
    Abs,
    Lnot,
    One,
}

#[derive(Clone, Copy, Debug, PartialEq, Eq)]
pub enum IndexUnaryOp {
    RowIndex,
    ColIndex,
    DiagIndex,
}

// The four kinds of apply, each with its operator, and with the scalar where it has one.
#[derive(Clone, Copy, Debug, PartialEq, Eq)]
pub enum ApplyOp {
    Unary(UnaryOp),
    BinaryScalarFirst(BinaryOp, u32),
    BinaryScalarSecond(BinaryOp, u32),
    IndexUnary(IndexUnaryOp, u32),
}

// The operator on x and y. Sums and differences wrap modulo 2^32.
pub fn apply_binary(op: BinaryOp, x: u32, y: u32) -> u32
    ensures { result ≡ binary_word op x y }
{
    match op {
        BinaryOp::First => x,
        BinaryOp::Second => y,
        BinaryOp::Oneb => 1,
        BinaryOp::Plus => x.wrapping_add(y),
        BinaryOp::Minus => x.wrapping_sub(y),
        BinaryOp::Times => twos_complement::multiply(x, y),
        BinaryOp::Min => twos_complement::minimum(x, y),
        BinaryOp::Max => twos_complement::maximum(x, y),
    }
}

// The binary operator of a monoid.
pub fn monoid_op(m: Monoid) -> BinaryOp
    ensures { result ≡ monoid_op m }
{
    match m {
        Monoid::Plus => BinaryOp::Plus,
        Monoid::Times => BinaryOp::Times,
        Monoid::Min => BinaryOp::Min,
        Monoid::Max => BinaryOp::Max,
    }
}

// The operator on x.
pub fn apply_unary(op: UnaryOp, x: u32) -> u32
    ensures { result ≡ unary_word op x }
{
    match op {
        UnaryOp::Identity => x,
        UnaryOp::Ainv => twos_complement::negate(x),
        UnaryOp::Abs => twos_complement::absolute(x),
        UnaryOp::Lnot => twos_complement::logical_not(x),
        UnaryOp::One => 1,
    }
}

// The operator at row i and column j with the scalar s. The sums wrap modulo 2^32.
pub fn apply_index_unary(op: IndexUnaryOp, i: u32, j: u32, s: u32) -> u32
    ensures { result ≡ index_unary_word op i j s }
{
    match op {
        IndexUnaryOp::RowIndex => i.wrapping_add(s),
        IndexUnaryOp::ColIndex => j.wrapping_add(s),
        IndexUnaryOp::DiagIndex => j.wrapping_sub(i).wrapping_add(s),
    }
}

// What apply makes of an entry x at row i and column j.
pub fn apply_entry(op: ApplyOp, x: u32, i: u32, j: u32) -> u32
    ensures { result ≡ entry_word op x i j }
{
    match op {
        ApplyOp::Unary(u) => apply_unary(u, x),
        ApplyOp::BinaryScalarFirst(b, s) => apply_binary(b, s, x),
        ApplyOp::BinaryScalarSecond(b, s) => apply_binary(b, x, s),
        ApplyOp::IndexUnary(k, s) => apply_index_unary(k, i, j, s),
    }
}
