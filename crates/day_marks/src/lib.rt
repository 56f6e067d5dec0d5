// The marks of rewritten rows (document 02, A7): a vector with an entry, whatever its value, for each of them. A mark is
// searched once; looking, setting and taking it go by what the search found.

#![tactic(auto)]

ghost use Rattle.std.specs.Prelude.{◌≡◌, ◌+◌, ◌≤◌, length, None, Some};
ghost use Rattle.grid.specs.Position.{entry_at};
ghost use Rattle.matrix.specs.Layout.{size, grid_of};
ghost use Rattle.edits.specs.Changes.{updated};
ghost use Rattle.day_grids.specs.Day.{marked};
ghost use Rattle.day_marks.specs.Marks.{Vector, mark_words, shown_words};

use grid::EntryAt;

// Whether row i is marked, by an entry of whatever value.
pub fn is_marked(marks: &[u32], i: u32) -> bool
    requires { Vector marks.now i }
    ensures { result ≡ marked (grid_of marks.now) i }
{
    matches!(cells::entry_at(marks, 0, i).entry, EntryAt::Present { .. })
}

// The matrix that row i is shown from.
pub fn shown<'a>(base: &'a [u32], day: &'a [u32], marks: &[u32], i: u32) -> &'a [u32]
    requires { Vector marks.now i }
    ensures { result.now ≡ shown_words base.now day.now marks.now i }
{
    if is_marked(marks, i) { day } else { base }
}

// How many words the marks grow by when a row is marked whose mark was searched.
pub fn mark_words(entry: EntryAt) -> usize
    ensures { result ≡ mark_words entry }
{
    match entry {
        EntryAt::Absent { .. } => 2,
        EntryAt::Present { .. } => 0,
    }
}

// Row i is marked with 1, where its mark was found or missed.
pub fn put_mark(marks: &mut [u32], i: u32, entry: EntryAt)
    requires vector { Vector marks.old i }
    requires searched { entry ≡ entry_at (grid_of marks.old) 0 i }
    requires space { size marks.old + mark_words entry ≤ length marks.old }
    ensures { marks.new ≡ updated marks.old 0 i (Some 1) }
{
    let EntryAt::Present { position, .. } = entry else {
        edits::insert_entry(marks, 0, i, grid::position_of(entry) as usize, 1);
        return;
    };
    edits::replace_value(marks, 0, i, position as usize, 1);
}

// The mark of row i goes, if there is one; the revision is the next in either case.
pub fn take_mark(marks: &mut [u32], i: u32)
    requires { Vector marks.old i }
    ensures { marks.new ≡ updated marks.old 0 i None }
{
    let EntryAt::Present { position, .. } = cells::entry_at(&marks[..], 0, i).entry else {
        matrix::touch(marks);
        return;
    };
    edits::remove_entry(marks, 0, i, position as usize);
}
