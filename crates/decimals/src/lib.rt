// Whole numbers written in decimals into a lent buffer of bytes, from `at` on; each function answers where the next
// byte goes.

#![tactic(auto)]

ghost use Rattle.std.specs.Prelude.{◌+◌, ◌≤◌, length};
ghost use Rattle.append.specs.Appended.{Appended};
ghost use Rattle.decimals.specs.Decimal.{decimal, signed_decimal};

const MINUS: u8 = b'-';

// The first word of a negative number.
const FIRST_NEGATIVE: u32 = 1 << 31;

// The number that a word holds in two's complement.
pub fn put_signed(out: &mut [u8], at: usize, word: u32) -> usize
    requires { at + length (signed_decimal word) ≤ length out.old }
    ensures { Appended (signed_decimal word) out.old out.new at result }
{
    if word < FIRST_NEGATIVE {
        put_decimal(out, at, word)
    } else {
        let next = append::put_byte(out, at, MINUS);
        put_decimal(out, next, word.wrapping_neg())
    }
}

// The digits of n / 10, if it is not 0, and the last one.
pub fn put_decimal(out: &mut [u8], at: usize, n: u32) -> usize
    requires { at + length (decimal n) ≤ length out.old }
    ensures { Appended (decimal n) out.old out.new at result }
{
    if n < 10 {
        append::put_byte(out, at, b'0' + n as u8)
    } else {
        let next = put_decimal(out, at, n / 10);
        append::put_byte(out, next, b'0' + (n % 10) as u8)
    }
}
