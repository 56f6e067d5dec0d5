// Matrices in files (document 02, A1): a file is the words of a valid matrix and nothing more, four bytes each, lowest
// byte first. A file of before document 02's A12, which lacks the section of the revision, is read too. Any number of
// bytes may come in. A refusal changes nothing lent, and what lies behind the written part stays.

#![tactic(auto)]

ghost use Rattle.std.specs.Prelude.{◌≡◌, ◌+◌, ◌/◌, ◌≤◌, [], ◌∷◌, length, take};
ghost use Rattle.answers.specs.Results.{answer};
ghost use Rattle.limits.specs.Sizes.{max_matrix_words};
ghost use Rattle.files.specs.File.{old_form, Taken, FileRead, FileWritten};

use answers::Refusal;
use matrix::layout::MAX_MATRIX_WORDS;

// The bytes of the largest matrix.
pub const MAX_FILE_BYTES: usize = 4 * MAX_MATRIX_WORDS;

// What an old file lacks at its front, 1 and the revision 0, stands before the words that are read.
const FRONT: usize = 2;

const STAGED_WORDS: usize = MAX_MATRIX_WORDS + FRONT;

// The matrix of a file at the front of the words: its number of entries. InvalidFile where the bytes are no file,
// InsufficientSpace where the words are too short.
pub fn read_file(bytes: &[u8], words: &mut [u32]) -> Result<u32, Refusal>
    ensures { FileRead bytes.now words.old (answer result) words.new }
{
    let mut staged = [0u32; STAGED_WORDS];
    staged[0] = 1;
    read_staged(bytes, &mut staged, words)
}

// The file of a matrix at the front of the bytes: its number of entries. InvalidFirst where the words are no valid
// matrix, InsufficientSpace where the bytes are too short.
pub fn write_file(words: &[u32], bytes: &mut [u8]) -> Result<u32, Refusal>
    ensures { FileWritten words.now bytes.old (answer result) bytes.new }
{
    if !matrix::is_valid(words) {
        return Err(Refusal::InvalidFirst);
    }
    let size = matrix::size(words);
    if bytes.len() < size * 4 {
        return Err(Refusal::InsufficientSpace);
    }
    word_bytes::write_bytes(&words[..size], bytes);
    Ok(matrix::entry_count(words))
}

// The words are put together in `staged` first, so that nothing is written before the last test. Those of an old file
// begin with the two before them.
fn read_staged(bytes: &[u8], staged: &mut [u32], words: &mut [u32]) -> Result<u32, Refusal>
    requires room { max_matrix_words + 2 ≤ length staged.old }
    requires front { take 2 staged.old ≡ 1 ∷ 0 ∷ [] }
    ensures { FileRead bytes.now words.old (answer result) words.new }
{
    let total = bytes.len();
    if MAX_FILE_BYTES < total {
        return Err(Refusal::InvalidFile);
    }
    word_bytes::read_words(bytes, &mut staged[FRONT..]);
    let end = total / 4 + FRONT;
    if old_form(&staged[FRONT..end]) {
        take(total + 8, &staged[..end], words)
    } else {
        take(total, &staged[FRONT..end], words)
    }
}

// Whether the words of a file have the form of before A12.
fn old_form(held: &[u32]) -> bool
    ensures { result ≡ old_form held.now }
{
    held.first() == Some(&2)
}

// The words of a file of `total` bytes are copied, if they are a matrix of that length.
fn take(total: usize, held: &[u32], words: &mut [u32]) -> Result<u32, Refusal>
    requires { length held.now ≡ total / 4 }
    ensures { Taken total held.now words.old (answer result) words.new }
{
    if !matrix::is_valid(held) {
        return Err(Refusal::InvalidFile);
    }
    let size = matrix::size(held);
    if total != size * 4 {
        return Err(Refusal::InvalidFile);
    }
    if words.len() < size {
        return Err(Refusal::InsufficientSpace);
    }
    words::copy_into(words, 0, held);
    Ok(matrix::entry_count(held))
}
