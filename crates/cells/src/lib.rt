// Reading one cell of a matrix (document 01: "read one cell").

#![tactic(auto)]

ghost use Rattle.std.specs.Prelude.{◌≡◌, ◌≤◌, ◌<◌};
ghost use Rattle.answers.specs.Results.{cell_answer};
ghost use Rattle.grid.specs.Position.{entry_at};
ghost use Rattle.matrix.specs.Layout.{rows, row_columns, grid_of};
ghost use Rattle.matrix.specs.Facts.{Matrix};
ghost use Rattle.rows.specs.Looks.{looks_for, most_looks};
ghost use Rattle.cells.specs.Read.{read_answer};

use answers::Refusal;
use grid::EntryAt;
use matrix::layout::{COLS_AT, ROWS_AT, STARTS_AT};
use rows::FoundEntry;

// The cell at row i and column j, with the position of its entry. InvalidFirst where the words are no valid matrix,
// IndexOutOfBounds where the row or the column is past it.
pub fn read_cell(words: &[u32], i: u32, j: u32) -> Result<EntryAt, Refusal>
    ensures { cell_answer result ≡ read_answer words.now i j }
{
    if !matrix::is_valid(words) {
        return Err(Refusal::InvalidFirst);
    }
    if words[ROWS_AT] <= i || words[COLS_AT] <= j {
        return Err(Refusal::IndexOutOfBounds);
    }
    Ok(entry_at(words, i as usize, j).entry)
}

// The entry of row i and column j of a valid matrix, or where it would be put, and how many column numbers were looked
// at: at most eleven. Reading, setting and clearing a cell search by it, each once.
pub fn entry_at(words: &[u32], i: usize, j: u32) -> FoundEntry
    requires fact_1 { Matrix words.now }
    requires fact_2 { i < rows words.now }
    ensures fact_1 { result.entry ≡ entry_at (grid_of words.now) i j }
    ensures fact_2 { result.looks ≡ looks_for j (row_columns words.now i) }
    ensures fact_3 { result.looks ≤ most_looks }
{
    rows::find_entry(
        matrix::row_columns(words, i),
        matrix::row_values(words, i),
        words[i + STARTS_AT],
        j,
    )
}
