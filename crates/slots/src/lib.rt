// A store in lent words: as many sections as there are slots, each a count of words and then the contents of its slot
// (document 01: "The shelf"). `check` tells whether any words are a store; the other functions want the facts of one.
// Contents are moved and never looked into, but by `check`: each is no words or a valid matrix.

#![tactic(auto)]

ghost use Rattle.std.specs.Prelude.{◌≡◌, cond, ◌+◌, ◌-◌, ◌≤◌, ◌<◌, leb, length, drop, Result, Ok, Err, Option, Some, None};
ghost use Rattle.limits.specs.Limits.{slot_count, max_store_words};
ghost use Rattle.answers.specs.declared.Refusal.TheVariants.{InvalidStore};
ghost use Rattle.matrix.specs.Layout.{max_matrix_words};
ghost use Rattle.slots.specs.Sections.{end_from, all_zero, count_at};
ghost use Rattle.slots.specs.Valid.{contents_valid, section_valid, sections_valid, store_valid};
ghost use Rattle.slots.specs.Facts.{Sections, Fits};
ghost use Rattle.slots.specs.Lent.{SlotPart};
ghost use Rattle.slots.specs.Room.{Filled, resized, Room, room_made};

use answers::Refusal;
use limits::{MAX_STORE_WORDS, SLOTS};

// Where the sections end, or that the words are no store.
pub fn check(store: &[u32]) -> Result<usize, Refusal>
    ensures { result ≡ cond (store_valid store.now) (Ok (end_from slot_count store.now)) (Err InvalidStore) }
{
    if store.len() < SLOTS || MAX_STORE_WORDS < store.len() {
        return Err(Refusal::InvalidStore);
    }
    let end = sections_end(store).ok_or(Refusal::InvalidStore)?;
    if zeros_from(store, end) {
        Ok(end)
    } else {
        Err(Refusal::InvalidStore)
    }
}

// Where the section of a slot starts.
pub fn find(store: &[u32], slot: usize) -> usize
    requires fact_1 { Sections slot_count store.now }
    requires fact_2 { slot < slot_count }
    ensures { result ≡ end_from slot store.now }
{
    let mut at = 0;
    for _k in 0..slot {
        at = at + 1 + store[at] as usize;
    }
    at
}

// The words of a slot.
pub fn contents(store: &[u32], slot: usize) -> &[u32]
    requires fact_1 { Sections slot_count store.now }
    requires fact_2 { slot < slot_count }
    ensures { SlotPart result store.entry slot }
{
    let at = find(store, slot);
    let from = at + 1;
    let to = from + store[at] as usize;
    &store[from..to]
}

// Whether there is room for a slot's contents of `size` words.
pub fn fits(store: &[u32], slot: usize, end: usize, size: usize) -> bool
    requires sections_1 { Sections slot_count store.now }
    requires sections_2 { slot < slot_count }
    requires end_value_1 { end ≡ end_from slot_count store.now }
    requires end_value_2 { length store.now ≤ max_store_words }
    requires end_value_3 { size ≤ max_matrix_words + 2 }
    ensures { result ≡ leb (end - count_at store.now slot + size) (length store.now) }
{
    let at = find(store, slot);
    let old = store[at] as usize;
    end - old + size <= store.len()
}

// The one way into a slot: it gets these words, whatever it held, and the later sections are moved to where they go
// then. False, and nothing changes, where there is no room for them.
pub fn put(store: &mut [u32], slot: usize, end: usize, held: &[u32]) -> bool
    requires sections_1 { Sections slot_count store.old }
    requires sections_2 { slot < slot_count }
    requires end_value_1 { end ≡ end_from slot_count store.old }
    requires end_value_2 { length store.old ≤ max_store_words }
    requires end_value_3 { length held.now ≤ max_matrix_words + 2 }
    ensures { Filled store.old slot held.now result store.new }
{
    let size = held.len();
    if !fits(&store[..], slot, end, size) {
        return false;
    }
    let from = find(&store[..], slot) + 1;
    resize(store, slot, end, size);
    words::copy_into(store, from, held);
    true
}

// A slot gets the count `size`, and the later sections are moved to where they go then; nothing is moved where that is
// its count already. The slot's words are those that stand in their place, to be written by the caller. Zeros fill what
// becomes free at the end.
pub fn resize(store: &mut [u32], slot: usize, end: usize, size: usize)
    requires { Fits store.old slot end size }
    ensures { store.new ≡ resized store.old slot size }
{
    let at = find(&store[..], slot);
    make_room(&mut store[at..], end - at, size);
}

// The same for the first section of a tail: its count, and one move of the later sections, which end at `end`.
fn make_room(tail: &mut [u32], end: usize, size: usize)
    requires { Room tail.old end size }
    ensures { tail.new ≡ room_made tail.old end size }
{
    let old = tail[0] as usize;
    if size == old {
        return;
    }
    tail[0] = size as u32;
    let from = 1 + old;
    let to = 1 + size;
    let later = end - from;
    if old < size {
        words::move_up(tail, from, to, later);
    } else {
        words::move_down(tail, from, to, later);
        let free = to + later;
        words::clear(&mut tail[free..end]);
    }
}

// Where the sections end, if all lie within the words and what each holds is valid.
fn sections_end(store: &[u32]) -> Option<usize>
    ensures { result ≡ cond (sections_valid store.now) (Some (end_from slot_count store.now)) None }
{
    let mut end = 0;
    for _k in 0..SLOTS {
        if !section_valid(store, end) {
            return None;
        }
        end = end + 1 + store[end] as usize;
    }
    Some(end)
}

// Whether the section at `at` lies within the words, and what it holds is valid.
fn section_valid(store: &[u32], at: usize) -> bool
    ensures { result ≡ section_valid store.now at }
{
    if store.len() <= at {
        return false;
    }
    let count = store[at] as usize;
    if store.len() - at - 1 < count {
        return false;
    }
    let from = at + 1;
    contents_valid(&store[from..from + count])
}

// Whether a slot may hold these words: none, or a valid matrix of that size.
fn contents_valid(contents: &[u32]) -> bool
    ensures { result ≡ contents_valid contents.now }
{
    contents.is_empty() || matrix::is_valid(contents) && matrix::size(contents) == contents.len()
}

// Whether the words from `at` on are zeros: the bits of all of them are collected, which takes less time than a test of
// each.
fn zeros_from(store: &[u32], at: usize) -> bool
    requires { at ≤ length store.now }
    ensures { result ≡ all_zero (drop at store.now) }
{
    let mut bits = 0;
    for word in &store[at..] {
        bits |= *word;
    }
    bits == 0
}
