// The refusals of a day matrix over a base matrix (document 02, A7) that are looked at before anything is worked out: 3
// base, 4 day, 5 marks, 6 new row, then 7 and 8, in this order.

#![tactic(auto)]

ghost use Rattle.std.specs.Prelude.{◌≡◌};
ghost use Rattle.answers.specs.Results.{code_of};
ghost use Rattle.matrix.specs.Layout.{grid_of};
ghost use Rattle.matrix.specs.Facts.{Header};
ghost use Rattle.day_requests.specs.Refusal.{is_vector, same_shape, day_refusal, pair_refusal, read_refusal};
ghost use Rattle.day_requests.specs.Refusal.{rewrite_refusal, back_refusal};

use answers::Refusal;
use matrix::layout::{COLS_AT, ROWS_AT};

// The refusals 3, 4, 5 and 8 of a base matrix, a day matrix and the marks: what folding and showing a row ask.
#[tactic(auto, unfolding(crate::specs::Refusal::pair_refusal, crate::specs::Refusal::day_refusal))]
pub fn pair_refusal(base: &[u32], day: &[u32], marks: &[u32]) -> Result<(), Refusal>
    ensures { code_of result ≡ pair_refusal base.now day.now marks.now }
{
    if !matrix::is_valid(base) {
        return Err(Refusal::InvalidFirst);
    }
    day_refusal(day, marks)?;
    if !same_shape(base, day) {
        return Err(Refusal::InvalidShape);
    }
    if !is_vector(marks, base[ROWS_AT]) {
        return Err(Refusal::InvalidShape);
    }
    Ok(())
}

// The refusals of reading a cell: 7, past the base matrix, comes before 8.
#[tactic(auto, unfolding(crate::specs::Refusal::read_refusal, crate::specs::Refusal::day_refusal))]
pub fn read_refusal(base: &[u32], day: &[u32], marks: &[u32], i: u32, j: u32) -> Result<(), Refusal>
    ensures { code_of result ≡ read_refusal base.now day.now marks.now i j }
{
    if !matrix::is_valid(base) {
        return Err(Refusal::InvalidFirst);
    }
    day_refusal(day, marks)?;
    if base[ROWS_AT] <= i {
        return Err(Refusal::IndexOutOfBounds);
    }
    if base[COLS_AT] <= j {
        return Err(Refusal::IndexOutOfBounds);
    }
    if !same_shape(base, day) {
        return Err(Refusal::InvalidShape);
    }
    if !is_vector(marks, base[ROWS_AT]) {
        return Err(Refusal::InvalidShape);
    }
    Ok(())
}

// The refusals 4 to 8 of rewriting row i: 7 is past the day matrix, 8 marks or a new row of another length.
#[tactic(auto, unfolding(crate::specs::Refusal::rewrite_refusal, crate::specs::Refusal::day_refusal))]
pub fn rewrite_refusal(day: &[u32], marks: &[u32], i: u32, row: &[u32]) -> Result<(), Refusal>
    ensures { code_of result ≡ rewrite_refusal day.now marks.now i row.now }
{
    day_refusal(day, marks)?;
    if !matrix::is_valid(row) {
        return Err(Refusal::InvalidOutput);
    }
    if day[ROWS_AT] <= i {
        return Err(Refusal::IndexOutOfBounds);
    }
    if !is_vector(marks, day[ROWS_AT]) {
        return Err(Refusal::InvalidShape);
    }
    if !is_vector(row, day[COLS_AT]) {
        return Err(Refusal::InvalidShape);
    }
    Ok(())
}

// The refusals 4, 5, 7 and 8 of taking the rewrite of row i back.
#[tactic(auto, unfolding(crate::specs::Refusal::back_refusal, crate::specs::Refusal::day_refusal))]
pub fn back_refusal(day: &[u32], marks: &[u32], i: u32) -> Result<(), Refusal>
    ensures { code_of result ≡ back_refusal day.now marks.now i }
{
    day_refusal(day, marks)?;
    if day[ROWS_AT] <= i {
        return Err(Refusal::IndexOutOfBounds);
    }
    if !is_vector(marks, day[ROWS_AT]) {
        return Err(Refusal::InvalidShape);
    }
    Ok(())
}

// 4 and 5.
#[tactic(auto, unfolding(crate::specs::Refusal::day_refusal))]
fn day_refusal(day: &[u32], marks: &[u32]) -> Result<(), Refusal>
    ensures { code_of result ≡ day_refusal day.now marks.now }
{
    if !matrix::is_valid(day) {
        return Err(Refusal::InvalidSecond);
    }
    if !matrix::is_valid(marks) {
        return Err(Refusal::InvalidMask);
    }
    Ok(())
}

// "both of one shape"
fn same_shape(base: &[u32], day: &[u32]) -> bool
    requires base_header { Header base.now }
    requires day_header { Header day.now }
    ensures { result ≡ same_shape (grid_of base.now) (grid_of day.now) }
{
    day[ROWS_AT] == base[ROWS_AT] && day[COLS_AT] == base[COLS_AT]
}

// A matrix of one row with `length` columns.
fn is_vector(words: &[u32], length: u32) -> bool
    requires { Header words.now }
    ensures { result ≡ is_vector (grid_of words.now) length }
{
    words[ROWS_AT] == 1 && words[COLS_AT] == length
}
