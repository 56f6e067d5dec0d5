// The inputs of a call as their flags ask. The workspace is three regions of the largest matrix each: the result, the
// first input transposed, the second input transposed.

#![tactic(auto)]

ghost use Rattle.std.specs.Prelude.{◌≡◌, true, cond, ◌≤◌, length};
ghost use Rattle.matrix.specs.Layout.{grid_of, max_matrix_words};
ghost use Rattle.matrix.specs.Facts.{Matrix};
ghost use Rattle.encoding.specs.Encode.{written_over};
ghost use Rattle.operations.specs.GridOperations.{transposed};
ghost use Rattle.sources.specs.Sources.{second_flag};

use matrix::layout::MAX_MATRIX_WORDS;
use operations::Call;

pub const FIRST_AT: usize = MAX_MATRIX_WORDS;

pub const SECOND_AT: usize = 2 * MAX_MATRIX_WORDS;

pub const REGIONS_END: usize = 3 * MAX_MATRIX_WORDS;

// Whether there is a second input and it is transposed.
pub fn second_flag(call: Call) -> bool
    ensures { result ≡ second_flag call }
{
    requests::has_second(call.operation) && requests::transpose_second(call)
}

// The transpose of a matrix, where it is asked for.
pub fn orient(flag: bool, a: &[u32], out: &mut [u32])
    requires fact_1 { (flag ≡ true → Matrix a.now) }
    requires fact_2 { max_matrix_words ≤ length out.old }
    ensures { out.new ≡ cond flag (written_over (transposed (grid_of a.now))
        out.old) out.old }
{
    if flag {
        transpose::transpose(a, out);
    }
}

// One of two slices.
pub fn choose<'a>(flag: bool, x: &'a [u32], y: &'a [u32]) -> &'a [u32]
    ensures { result.now ≡ cond flag x.now y.now }
{
    if flag { x } else { y }
}
