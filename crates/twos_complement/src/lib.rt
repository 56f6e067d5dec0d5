// Signed 32-bit arithmetic on words, in two's complement. A word x holds the number `signed x`, and each
// operation here gives the word of its exact result, modulo 2^32. Sums and differences are `wrapping_add` and
// `wrapping_sub` of the words.

#![tactic(auto)]

ghost use Rattle.std.specs.Prelude.{◌≡◌, ◌*ℤ◌, neg_ℤ};
ghost use Rattle.twos_complement.specs.TwosComplement.{signed, word, min_ℤ, max_ℤ, abs_ℤ, not_ℤ};

// The number that a word holds.
pub fn to_signed(x: u32) -> i32
    ensures { result ≡ signed x }
{
    x.cast_signed()
}

// The word of a number.
pub fn from_signed(z: i32) -> u32
    ensures { result ≡ word z }
{
    z.cast_unsigned()
}

// The exact product modulo 2^32.
pub fn multiply(x: u32, y: u32) -> u32
    ensures { result ≡ word (signed x *ℤ signed y) }
{
    x.wrapping_mul(y)
}

// The smaller of two, as signed numbers.
pub fn minimum(x: u32, y: u32) -> u32
    ensures { result ≡ word (min_ℤ (signed x) (signed y)) }
{
    from_signed(to_signed(x).min(to_signed(y)))
}

// The larger of two, as signed numbers.
pub fn maximum(x: u32, y: u32) -> u32
    ensures { result ≡ word (max_ℤ (signed x) (signed y)) }
{
    from_signed(to_signed(x).max(to_signed(y)))
}

// The negative. That of the smallest value is that value itself.
// Kept: the exceptional value before the minus sign, the form that document 01 asks for, and no `wrapping_neg`.
pub fn negate(x: u32) -> u32
    ensures { result ≡ word (neg_ℤ (signed x)) }
{
    let z = to_signed(x);
    if z == -2147483648 {
        return x;
    }
    from_signed(-z)
}

// The absolute value. That of the smallest value is that value itself.
// Kept: the exceptional value before the minus sign, the form that document 01 asks for, and no `unsigned_abs`.
pub fn absolute(x: u32) -> u32
    ensures { result ≡ word (abs_ℤ (signed x)) }
{
    let value = to_signed(x);
    if value >= 0 {
        return x;
    }
    if value == -2147483648 {
        return x;
    }
    from_signed(-value)
}

// 1 for 0, and 0 for any other number.
pub fn logical_not(x: u32) -> u32
    ensures { result ≡ word (not_ℤ (signed x)) }
{
    u32::from(x == 0)
}
