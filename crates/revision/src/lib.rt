// The revision of a lent matrix (document 02, A12: "Support wants to know whether a sheet was touched").

#![tactic(auto)]

ghost use Rattle.std.specs.Prelude.{◌≡◌};
ghost use Rattle.answers.specs.Results.{total_answer};
ghost use Rattle.revision.specs.Revision.{revision_answer};

use answers::Refusal;

// The revision. InvalidFirst where the words are no valid matrix.
pub fn revision_of(words: &[u32]) -> Result<u32, Refusal>
    ensures { total_answer result ≡ revision_answer words.now }
{
    if matrix::is_valid(words) {
        Ok(matrix::revision(words))
    } else {
        Err(Refusal::InvalidFirst)
    }
}
