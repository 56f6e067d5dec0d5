// The calls on a store that change or read one slot (document 01, "The shelf"): lay an empty matrix, drop a slot, set,
// clear and read a cell. Any words may be lent. Each call validates the store once. A refused call changes no word of
// it, and a write moves each later word at most once.

#![tactic(auto)]

ghost use Rattle.std.specs.Prelude.{◌≡◌};
ghost use Rattle.limits.specs.Limits.{slot_count};
ghost use Rattle.answers.specs.Refusals.{accepted};
ghost use Rattle.answers.specs.Results.{code_of, answer, cell_answer};
ghost use Rattle.grid.specs.Grid.{empty_grid};
ghost use Rattle.grid.specs.Position.{AbsentAt, PresentAt};
ghost use Rattle.encoding.specs.Encode.{encode};
ghost use Rattle.slots.specs.Sections.{end_from};
ghost use Rattle.slots.specs.Facts.{Store};
ghost use Rattle.slots.specs.Room.{Filled};
ghost use Rattle.model.specs.Effects.{wrote, found};
ghost use Rattle.model.specs.Calls.{new_empty, drop_slot, set_cell, clear_cell, read_cell};
ghost use Rattle.store_encoding.specs.Stores.{model_of, reply_on, Performed};
ghost use Rattle.store_cells.specs.Slots.{shape_refusal, cell_refusal, Layable, CellOf, slot_grid, CellSet, CellCleared};

use answers::Refusal;
use grid::EntryAt;
use limits::{MAX_COLS, MAX_ENTRIES, MAX_ROWS, SLOTS};
use matrix::layout::{COLS_AT, FIXED_WORDS, ROWS_AT};

// The words of the largest empty matrix.
const EMPTY_WORDS: usize = MAX_ROWS as usize + FIXED_WORDS;

// An empty matrix in a slot, whatever was there.
pub fn new_empty(store: &mut [u32], slot: usize, rows: u32, cols: u32) -> Result<u32, Refusal>
    ensures { Performed store.old (new_empty slot rows cols) (wrote (answer result)) store.new }
{
    let end = slots::check(&store[..])?;
    shape_refusal(slot, rows, cols)?;
    if lay(store, slot, end, rows, cols) {
        Ok(0)
    } else {
        Err(Refusal::InsufficientSpace)
    }
}

// 12 and 8 of an empty matrix.
fn shape_refusal(slot: usize, rows: u32, cols: u32) -> Result<(), Refusal>
    ensures { code_of result ≡ shape_refusal slot rows cols }
{
    if SLOTS <= slot {
        return Err(Refusal::InvalidStore);
    }
    if !matrix::in_range(rows, MAX_ROWS) || !matrix::in_range(cols, MAX_COLS) {
        return Err(Refusal::InvalidShape);
    }
    Ok(())
}

// The words of an empty matrix put into a slot, if there is room for them.
fn lay(store: &mut [u32], slot: usize, end: usize, rows: u32, cols: u32) -> bool
    requires { Layable store.old slot end rows }
    ensures { Filled store.old slot (encode (empty_grid rows cols)) result store.new }
{
    let mut empty: [u32; EMPTY_WORDS] = [0; EMPTY_WORDS];
    create::write_empty(&mut empty[..], rows, cols);
    let size = rows as usize + FIXED_WORDS;
    slots::put(store, slot, end, &empty[..size])
}

// A slot becomes empty.
pub fn drop_slot(store: &mut [u32], slot: usize) -> Result<u32, Refusal>
    ensures { Performed store.old (drop_slot slot) (wrote (answer result)) store.new }
{
    let end = slots::check(&store[..])?;
    if SLOTS <= slot {
        return Err(Refusal::InvalidStore);
    }
    slots::resize(store, slot, end, 0);
    Ok(0)
}

// A cell takes a value.
pub fn set_cell(store: &mut [u32], slot: usize, i: u32, j: u32, value: u32) -> Result<u32, Refusal>
    ensures { Performed store.old (set_cell slot i j value) (wrote (answer result)) store.new }
{
    let end = slots::check(&store[..])?;
    cell_refusal(&store[..], slot, i, j)?;
    let row = i as usize;
    let entry = cells::entry_at(slots::contents(&store[..], slot), row, j).entry;
    let EntryAt::Present { position, .. } = entry else {
        return add(
            store,
            slot,
            end,
            row,
            j,
            grid::position_of(entry) as usize,
            value,
        );
    };
    Ok(replace(store, slot, row, j, position as usize, value))
}

// The entry p of a slot takes a value; nothing moves. The number of entries.
fn replace(store: &mut [u32], slot: usize, i: usize, j: u32, p: usize, value: u32) -> u32
    requires cell { CellOf store.old slot i j }
    requires present { PresentAt (slot_grid store.old slot) i j p }
    ensures { CellSet store.old slot i j value (accepted result) store.new }
{
    let words = slots::contents(&store[..], slot);
    let n = matrix::entry_count(words);
    let size = words.len();
    let from = slots::find(&store[..], slot) + 1;
    edits::replace_value(&mut store[from..from + size], i, j, p, value);
    n
}

// An entry more at position p, if there is room.
fn add(
    store: &mut [u32],
    slot: usize,
    end: usize,
    i: usize,
    j: u32,
    p: usize,
    value: u32,
) -> Result<u32, Refusal>
    requires cell { CellOf store.old slot i j }
    requires ends { end ≡ end_from slot_count store.old }
    requires absent { AbsentAt (slot_grid store.old slot) i j p }
    ensures { CellSet store.old slot i j value (answer result) store.new }
{
    let words = slots::contents(&store[..], slot);
    let n = matrix::entry_count(words);
    let size = words.len() + 2;
    if n == MAX_ENTRIES {
        return Err(Refusal::TooManyEntries);
    }
    if !slots::fits(&store[..], slot, end, size) {
        return Err(Refusal::InsufficientSpace);
    }
    let from = slots::find(&store[..], slot) + 1;
    slots::resize(store, slot, end, size);
    edits::insert_entry(&mut store[from..from + size], i, j, p, value);
    Ok(n + 1)
}

// A cell becomes empty. One that is empty already is left so, and counts as written into.
pub fn clear_cell(store: &mut [u32], slot: usize, i: u32, j: u32) -> Result<u32, Refusal>
    ensures { Performed store.old (clear_cell slot i j) (wrote (answer result)) store.new }
{
    let end = slots::check(&store[..])?;
    cell_refusal(&store[..], slot, i, j)?;
    let row = i as usize;
    let entry = cells::entry_at(slots::contents(&store[..], slot), row, j).entry;
    let EntryAt::Present { position, .. } = entry else {
        return Ok(touch(store, slot, row, j, grid::position_of(entry) as usize));
    };
    Ok(take(store, slot, end, row, j, position as usize))
}

// A cell of a slot that has no entry stays so: the slot's revision is the next. The number of entries.
fn touch(store: &mut [u32], slot: usize, i: usize, j: u32, p: usize) -> u32
    requires cell { CellOf store.old slot i j }
    requires absent { AbsentAt (slot_grid store.old slot) i j p }
    ensures { CellCleared store.old slot i j (accepted result) store.new }
{
    let words = slots::contents(&store[..], slot);
    let n = matrix::entry_count(words);
    let size = words.len();
    let from = slots::find(&store[..], slot) + 1;
    matrix::touch(&mut store[from..from + size]);
    n
}

// The entry p of a slot goes, and two words with it. The number of entries that are left.
fn take(store: &mut [u32], slot: usize, end: usize, i: usize, j: u32, p: usize) -> u32
    requires cell { CellOf store.old slot i j }
    requires ends { end ≡ end_from slot_count store.old }
    requires present { PresentAt (slot_grid store.old slot) i j p }
    ensures { CellCleared store.old slot i j (accepted result) store.new }
{
    let words = slots::contents(&store[..], slot);
    let n = matrix::entry_count(words);
    let size = words.len();
    let from = slots::find(&store[..], slot) + 1;
    edits::remove_entry(&mut store[from..from + size], i, j, p);
    slots::resize(store, slot, end, size - 2);
    n - 1
}

// One cell, with the position of its entry.
pub fn read_cell(store: &[u32], slot: usize, i: u32, j: u32) -> Result<EntryAt, Refusal>
    ensures { found (cell_answer result) ≡ reply_on store.now (read_cell slot i j) }
{
    slots::check(store)?;
    cell_refusal(store, slot, i, j)?;
    Ok(cells::entry_at(slots::contents(store, slot), i as usize, j).entry)
}

// 12, 13 and 7 of a call that names a cell.
fn cell_refusal(store: &[u32], slot: usize, i: u32, j: u32) -> Result<(), Refusal>
    requires { Store store.now }
    ensures { code_of result ≡ cell_refusal (model_of store.now) slot i j }
{
    if SLOTS <= slot {
        return Err(Refusal::InvalidStore);
    }
    let words = slots::contents(store, slot);
    if words.is_empty() {
        return Err(Refusal::EmptySlot);
    }
    if words[ROWS_AT] <= i || words[COLS_AT] <= j {
        return Err(Refusal::IndexOutOfBounds);
    }
    Ok(())
}
