// Reducing a whole matrix to one number (document 02, A4: "a whole sheet into one number").

#![tactic(auto)]

ghost use Rattle.std.specs.Prelude.{◌≡◌};
ghost use Rattle.answers.specs.Results.{total_answer};
ghost use Rattle.matrix.specs.Layout.{grid_of};
ghost use Rattle.matrix.specs.Facts.{Matrix};
ghost use Rattle.reductions.specs.Reductions.{grid_total};
ghost use Rattle.reduce.specs.Reduce.{reduce_answer, total_answer as reduced_by};

use answers::Refusal;
use matrix::layout::VALUES_PAST;
use operators::Monoid;

// All values of the matrix added up with a monoid, by its number; of an empty matrix the monoid's identity.
// UnknownOperator where the number is no monoid's, InvalidFirst where the words are no valid matrix.
pub fn reduce(words: &[u32], monoid: u32) -> Result<u32, Refusal>
    ensures { total_answer result ≡ reduce_answer words.now monoid }
{
    match operator_codes::monoid_code(monoid) {
        Some(m) => reduce_by(m, words),
        None => Err(Refusal::UnknownOperator),
    }
}

// The same with a monoid.
fn reduce_by(m: Monoid, words: &[u32]) -> Result<u32, Refusal>
    ensures { total_answer result ≡ reduced_by m words.now }
{
    if matrix::is_valid(words) {
        Ok(total_of(m, words))
    } else {
        Err(Refusal::InvalidFirst)
    }
}

// The total of a valid matrix: the values stand together.
pub fn total_of(m: Monoid, words: &[u32]) -> u32
    requires { Matrix words.now }
    ensures { result ≡ grid_total m (grid_of words.now) }
{
    let n = matrix::entry_count(words) as usize;
    let from = matrix::row_count(words) as usize + n + VALUES_PAST;
    let to = from + n;
    reductions::add_up(
        operators::monoid_op(m),
        reductions::identity(m),
        &words[from..to],
    )
}
