// Extract on one row, by its entries: the index list is inverted once, and then an entry's column tells its place in
// the list.

#![tactic(auto)]

ghost use Rattle.std.specs.Prelude.{◌≡◌, ◌*◌, ◌≤◌, length, replicate};
ghost use Rattle.limits.specs.Limits.{max_cols};
ghost use Rattle.words.specs.Words.{at};
ghost use Rattle.rows.specs.Row.{lookup, Row, Holds};
ghost use Rattle.bit_rows.specs.Bits.{Tracked};
ghost use Rattle.extract_rows.specs.Indices.{Indices, Inverse, Inverses, Placed};

use bit_rows::MAP_WORDS;
use limits::ROW_PLACES;

// The words of both inverses.
pub const INVERSE_PLACES: usize = 2 * ROW_PLACES;

// The inverses of two index lists, in zeros: of the second one, then of the first.
pub fn invert_lists(is: &[u32], js: &[u32], out: &mut [u32])
    requires fact_1 { Indices is.now }
    requires fact_2 { Indices js.now }
    requires fact_3 { out.old ≡ replicate (2 * max_cols) 0 }
    ensures { Inverses is.now js.now out.new }
{
    invert(js, &mut out[..ROW_PLACES]);
    invert(is, &mut out[ROW_PLACES..]);
}

// The inverse of an index list, in zeros: at each column that the list names its place in the list, counted
// from 1.
fn invert(list: &[u32], out: &mut [u32])
    requires indices { Indices list.now }
    requires zeros { out.old ≡ replicate max_cols 0 }
    ensures { Inverse list.now out.new }
{
    for (j, &k) in list.iter().enumerate() {
        out[k as usize] = j as u32 + 1;
    }
}

// The row whose cell j is the cell at column list[j], to the front of `oc` and `ov`; its number of entries. Each entry
// is put at its place in the list, and those that are there are collected.
pub fn extract_row(
    columns: &[u32],
    values: &[u32],
    list: &[u32],
    inverse: &[u32],
    oc: &mut [u32],
    ov: &mut [u32],
) -> usize
    requires row_1 { Row max_cols columns.now values.now }
    requires row_2 { Indices list.now }
    requires row_3 { Inverse list.now inverse.now }
    requires list_in_bounds { (length list.now ≤ length oc.old) × (length list.now ≤ length ov.old) }
    ensures { Holds (length list.now)
        (λ j. lookup columns.now values.now (at list.now j))
        result oc.new ov.new }
{
    if columns.is_empty() {
        return 0;
    }
    let mut map = [0u64; MAP_WORDS];
    let mut top: u64 = 0;
    for (p, &k) in columns.iter().enumerate() {
        top = place_entry(top, &mut map, ov, inverse[k as usize], values[p]);
    }
    bit_rows::collect(top, &map, oc, ov)
}

// Puts a value at its place, counted from 1, and marks it there; 0 is no place. The new top word.
fn place_entry(top: u64, map: &mut [u64; MAP_WORDS], ov: &mut [u32], place: u32, value: u32) -> u64
    requires place_in_bounds { (place ≤ max_cols) × (place ≤ length ov.old) }
    requires tracked { Tracked top map.old }
    ensures { Placed place value top map.old ov.old result map.new
        ov.new }
{
    if place == 0 {
        top
    } else {
        let j = place as usize - 1;
        ov[j] = value;
        bit_rows::mark_column(top, map, j)
    }
}
