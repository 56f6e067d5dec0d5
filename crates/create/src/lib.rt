// Making a matrix without entries in a lent buffer (document 01: "lay an empty sheet over whatever words the buffer
// held").

#![tactic(auto)]

ghost use Rattle.std.specs.Prelude.{◌≡◌, ◌+◌, ◌≤◌, length, drop, ◌++◌};
ghost use Rattle.limits.specs.Limits.{max_rows};
ghost use Rattle.grid.specs.Grid.{empty_grid};
ghost use Rattle.encoding.specs.Encode.{encode};
ghost use Rattle.matrix.specs.Layout.{size_of};
ghost use Rattle.answers.specs.Results.{answer};
ghost use Rattle.create.specs.Create.{Created};

use answers::Refusal;
use limits::{MAX_COLS, MAX_ROWS};
use matrix::layout::FIXED_WORDS;

// The empty matrix of the given shape at the front of the buffer: its number of entries, 0. InvalidShape where a number
// of rows or columns is out of range, InsufficientSpace where the buffer is too short.
pub fn new_empty(buffer: &mut [u32], rows: u32, cols: u32) -> Result<u32, Refusal>
    ensures { Created buffer.old rows cols (answer result) buffer.new }
{
    if !matrix::in_range(rows, MAX_ROWS) || !matrix::in_range(cols, MAX_COLS) {
        return Err(Refusal::InvalidShape);
    }
    if buffer.len() < rows as usize + FIXED_WORDS {
        return Err(Refusal::InsufficientSpace);
    }
    write_empty(buffer, rows, cols);
    Ok(0)
}

// The words of the empty matrix; what lies behind them stays.
pub fn write_empty(buffer: &mut [u32], rows: u32, cols: u32)
    requires { (rows ≤ max_rows) × (size_of rows 0 ≤ length buffer.old) }
    ensures { buffer.new ≡ encode (empty_grid rows cols) ++ drop (size_of rows 0) buffer.old }
{
    let size = rows as usize + FIXED_WORDS;
    words::clear(&mut buffer[..size]);
    matrix::write_header(buffer, rows, cols, 0);
}
