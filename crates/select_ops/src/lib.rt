// The conditions of select (document 02, A4) on words, each a signed 32-bit number in two's complement.

#![tactic(auto)]

ghost use Rattle.std.specs.Prelude.{◌≡◌, ◌+◌, ◌%◌};
ghost use Rattle.select_ops.specs.Selects.{selects};

// Each with the scalar s: the value equal, not equal, less, at most, greater, at least s; the lower triangle, where the
// column is at most the row plus s, and the upper, where it is at least that.
#[derive(Clone, Copy, Debug, PartialEq, Eq)]
pub enum SelectOp {
    ValueEq(u32),
    ValueNe(u32),
    ValueLt(u32),
    ValueLe(u32),
    ValueGt(u32),
    ValueGe(u32),
    Tril(u32),
    Triu(u32),
}

// Whether select keeps an entry x at row i and column j.
pub fn is_selected(op: SelectOp, x: u32, i: u32, j: u32) -> bool
    ensures { result ≡ selects op x i j }
{
    match op {
        SelectOp::ValueEq(s) => x == s,
        SelectOp::ValueNe(s) => x != s,
        SelectOp::ValueLt(s) => rank(x) < rank(s),
        SelectOp::ValueLe(s) => rank(x) <= rank(s),
        SelectOp::ValueGt(s) => rank(s) < rank(x),
        SelectOp::ValueGe(s) => rank(s) <= rank(x),
        SelectOp::Tril(s) => raised(j) <= raised_sum(i, s),
        SelectOp::Triu(s) => raised_sum(i, s) <= raised(j),
    }
}

// Where a word stands among all, from the smallest number to the largest: its number raised by 2^31.
fn rank(x: u32) -> u32
    ensures { result ≡ (x + 2147483648) % 4294967296 }
{
    x.wrapping_add(2147483648)
}

// A column raised by 2^31.
fn raised(j: u32) -> u64
    ensures { result ≡ j + 2147483648 }
{
    u64::from(j) + 2147483648
}

// The exact sum of a row and a scalar, raised by 2^31.
fn raised_sum(i: u32, s: u32) -> u64
    ensures { result ≡ i + (s + 2147483648) % 4294967296 }
{
    u64::from(i) + u64::from(rank(s))
}
