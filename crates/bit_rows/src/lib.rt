// A row's marked columns as bits: a map with a bit for every place, and a top word with a bit for every word of the map
// that is in use. The values stand in a buffer beside it, each at the place of its column, and are collected there.

#![tactic(auto)]

ghost use Rattle.std.specs.Prelude.{◌≡◌, ◌+◌, ◌≤◌, ◌<◌, length};
ghost use Rattle.limits.specs.Limits.{max_cols};
ghost use Rattle.rows.specs.Row.{Holds};
ghost use Rattle.bit_rows.specs.Bits.{SetBit, map_places, mark, flagged, Tracked, Marking};
ghost use Rattle.bit_rows.specs.Bits.{map_words, KeptBits, Kept, Room, WordRoom, WordCollected};

use limits::ROW_PLACES;

// The words of a map: a bit for every place of a row.
pub const MAP_WORDS: usize = (ROW_PLACES + 63) / 64;

// x with bit s set.
pub fn with_bit(x: u64, s: usize) -> u64
    requires { s < 64 }
    ensures { SetBit x s result }
{
    x | (1u64 << s)
}

// The mark of column j: 1, or 0 where it is not marked.
pub fn mark_at(map: &[u64; MAP_WORDS], j: usize) -> u32
    requires { j < max_cols }
    ensures { result ≡ mark map.now j }
{
    let w = j / 64;
    let s = j % 64;
    ((map[w] >> s) % 2) as u32
}

// Marks column j: the new top word.
pub fn mark_column(top: u64, map: &mut [u64; MAP_WORDS], j: usize) -> u64
    requires fact_1 { j < max_cols }
    requires fact_2 { Tracked top map.old }
    ensures { Marking j map.old result map.new }
{
    let w = j / 64;
    let s = j % 64;
    map[w] = with_bit(map[w], s);
    with_bit(top, w)
}

// The bits of x that y has too, or with `complement` those that y has not.
fn kept_bits(complement: bool, x: u64, y: u64) -> u64
    ensures { KeptBits complement x y result }
{
    let both = x & y;
    if complement { x ^ both } else { both }
}

// Keeps of the marked columns those that `marks` has too, or with `complement` those that it has not.
pub fn keep_columns(complement: bool, marks: &[u64; MAP_WORDS], map: &mut [u64; MAP_WORDS])
    requires { length map.old ≡ map_words }
    ensures { Kept complement marks.now map.old map.new }
{
    for (w, word) in map.iter_mut().enumerate() {
        *word = kept_bits(complement, *word, marks[w]);
    }
}

// The marked columns, in order, to the front of `oc`, and their values from their places to the front of `ov`; how many
// they are.
pub fn collect(top: u64, map: &[u64; MAP_WORDS], oc: &mut [u32], ov: &mut [u32]) -> usize
    requires fact_1 { Tracked top map.now }
    requires fact_2 { Room map.now (length oc.old) (length ov.old) }
    ensures { Holds map_places (flagged map.now ov.old)
        result oc.new ov.new }
{
    let mut e: usize = 0;
    let mut used = top;
    while used != 0 {
        let w = used.trailing_zeros() as usize;
        e = collect_word(map[w], w * 64, oc, ov, e);
        used &= used - 1;
    }
    e
}

// The columns that one word of the map marks, from column `base` on, behind the `count` that are there.
fn collect_word(word: u64, base: usize, oc: &mut [u32], ov: &mut [u32], count: usize) -> usize
    requires base_in_bounds { (count ≤ base) × (base + 64 ≤ map_places) }
    requires room { WordRoom word base (length oc.old) (length ov.old) }
    ensures { WordCollected word base oc.old ov.old count
        oc.new ov.new result }
{
    let mut e = count;
    let mut rest = word;
    while rest != 0 {
        let j = base + rest.trailing_zeros() as usize;
        oc[e] = j as u32;
        ov[e] = ov[j];
        e += 1;
        rest &= rest - 1;
    }
    e
}
