// Bytes written one after the other into a lent buffer. `at` is how far the buffer is filled; each function answers how
// far it is filled then. Kept: a position beside the buffer, since there is no heap and the contracts of all that write
// texts (`Appended`) say where the next byte goes.

#![tactic(auto)]

ghost use Rattle.std.specs.Prelude.{◌<◌, [], ◌∷◌, length};
ghost use Rattle.append.specs.Appended.{Appended};

// One byte.
pub fn put_byte(out: &mut [u8], at: usize, byte: u8) -> usize
    requires { at < length out.old }
    ensures { Appended (byte ∷ []) out.old out.new at result }
{
    out[at] = byte;
    at + 1
}
