// Lent slices of 32-bit words.

#![tactic(auto)]

ghost use Rattle.std.specs.Prelude.{◌≡◌, ◌+◌, ◌≤◌, length, replicate};
ghost use Rattle.words.specs.Words.{part, overwrite};

// Every word becomes 0.
pub fn clear(words: &mut [u32])
    ensures { words.new ≡ replicate (length words.old) 0 }
{
    words.fill(0);
}

// The words of `src` are written into `dst` from `at` on. Rows often have none, and a copy of none is a call too.
pub fn copy_into(dst: &mut [u32], at: usize, src: &[u32])
    requires { at + length src.now ≤ length dst.old }
    ensures { dst.new ≡ overwrite at src.now dst.old }
{
    if !src.is_empty() {
        dst[at..at + src.len()].copy_from_slice(src);
    }
}

// n words are moved down, from `from` on to `to` on.
pub fn move_down(words: &mut [u32], from: usize, to: usize, n: usize)
    requires { (to ≤ from) × (from + n ≤ length words.old) }
    ensures { words.new ≡ overwrite to (part from (from + n) words.old) words.old }
{
    words.copy_within(from..from + n, to);
}

// n words are moved up, from `from` on to `to` on.
pub fn move_up(words: &mut [u32], from: usize, to: usize, n: usize)
    requires { (from ≤ to) × (to + n ≤ length words.old) }
    ensures { words.new ≡ overwrite to (part from (from + n) words.old) words.old }
{
    words.copy_within(from..from + n, to);
}
