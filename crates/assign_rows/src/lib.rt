// Assign on one row, by entries: those of A's row are put at the columns that the list names, those of the old row are
// kept at the others, and what is there is collected.

#![tactic(auto)]

ghost use Rattle.std.specs.Prelude.{◌≡◌, ◌≤◌, length, None};
ghost use Rattle.limits.specs.Limits.{max_cols};
ghost use Rattle.operations.specs.CellOperations.{listed_cell, unlisted_cell};
ghost use Rattle.rows.specs.Row.{lookup, Row, Holds};
ghost use Rattle.bit_rows.specs.Bits.{flagged, Tracked, Carries};
ghost use Rattle.extract_rows.specs.Indices.{Indices};
ghost use Rattle.assign_rows.specs.Assigned.{Below, Listed, AtListed, OnlyListed, with_unlisted};

use bit_rows::MAP_WORDS;
use operations::Accumulator;

// A row of `places` columns that the list of rows names, to the front of `oc` and `ov`; its number of entries. A's row
// has a column for each index of the list, the old row one for each place.
pub fn assign_row(
    accumulator: Accumulator,
    places: u32,
    columns: &[u32],
    values: &[u32],
    old_columns: &[u32],
    old_values: &[u32],
    list: &[u32],
    inverse: &[u32],
    oc: &mut [u32],
    ov: &mut [u32],
) -> usize
    requires places_le_max_cols_1 { places ≤ max_cols }
    requires places_le_max_cols_2 { Row (length list.now) columns.now values.now }
    requires places_le_max_cols_3 { Row places old_columns.now old_values.now }
    requires places_le_max_cols_4 { Listed places list.now inverse.now }
    requires places_in_bounds { (places ≤ length oc.old) × (places ≤ length ov.old) }
    ensures { Holds places
        (λ j. listed_cell (length list.now) list.now j
        (lookup columns.now values.now)
        (unlisted_cell accumulator (lookup old_columns.now old_values.now j)))
        result oc.new ov.new }
{
    let mut map = [0u64; MAP_WORDS];
    let top = place_listed(columns, values, list, &mut map, ov);
    let all = keep_unlisted(
        accumulator,
        places,
        old_columns,
        old_values,
        inverse,
        top,
        &mut map,
        ov,
    );
    bit_rows::collect(all, &map, oc, ov)
}

// A row of `places` columns that the list of rows does not name: the old row, or nothing under an accumulator.
pub fn unlisted_row(
    accumulator: Accumulator,
    places: u32,
    old_columns: &[u32],
    old_values: &[u32],
    oc: &mut [u32],
    ov: &mut [u32],
) -> usize
    requires row { Row places old_columns.now old_values.now }
    requires places_in_bounds { (places ≤ length oc.old) × (places ≤ length ov.old) }
    ensures { Holds places
        (λ j. unlisted_cell accumulator (lookup old_columns.now old_values.now j))
        result oc.new ov.new }
{
    match accumulator {
        None => row_pairs::copy_row(places, old_columns, old_values, oc, ov),
        Some(_) => 0,
    }
}

// The entries of A's row, each put at the column that the list has for it and marked there, in a map without marks: the
// top word.
fn place_listed(
    columns: &[u32],
    values: &[u32],
    list: &[u32],
    map: &mut [u64; MAP_WORDS],
    ov: &mut [u32],
) -> u64
    requires row { Row (length list.now) columns.now values.now }
    requires indices { Indices list.now }
    requires list_in_bounds { Below (length ov.old) list.now }
    requires no_marks { Carries (λ j. None) 0 map.old ov.old }
    ensures { AtListed list.now columns.now values.now result map.new
        ov.new }
{
    let mut top: u64 = 0;
    for (p, &k) in columns.iter().enumerate() {
        let j = list[k as usize] as usize;
        ov[j] = values[p];
        top = bit_rows::mark_column(top, map, j);
    }
    top
}

// Without an accumulator, the entries of the old row at the columns that the list does not name: the new top word.
fn keep_unlisted(
    accumulator: Accumulator,
    places: u32,
    old_columns: &[u32],
    old_values: &[u32],
    inverse: &[u32],
    top: u64,
    map: &mut [u64; MAP_WORDS],
    ov: &mut [u32],
) -> u64
    requires places_in_bounds { (places ≤ max_cols) × (places ≤ length ov.old) }
    requires old_row { Row places old_columns.now old_values.now }
    requires inverse_sized { length inverse.now ≡ max_cols }
    requires tracked { Tracked top map.old }
    requires only_listed { OnlyListed inverse.now map.old ov.old }
    ensures { Carries (with_unlisted inverse.now
        (λ j. unlisted_cell accumulator (lookup old_columns.now old_values.now j))
        (flagged map.old ov.old)) result map.new ov.new }
{
    match accumulator {
        None => add_unlisted(places, old_columns, old_values, inverse, top, map, ov),
        Some(_) => top,
    }
}

// The entries of the old row at the columns that the list does not name, put there and marked: the new top word.
fn add_unlisted(
    places: u32,
    old_columns: &[u32],
    old_values: &[u32],
    inverse: &[u32],
    top: u64,
    map: &mut [u64; MAP_WORDS],
    ov: &mut [u32],
) -> u64
    requires places_in_bounds { (places ≤ max_cols) × (places ≤ length ov.old) }
    requires old_row { Row places old_columns.now old_values.now }
    requires inverse_sized { length inverse.now ≡ max_cols }
    requires tracked { Tracked top map.old }
    requires only_listed { OnlyListed inverse.now map.old ov.old }
    ensures { Carries (with_unlisted inverse.now
        (lookup old_columns.now old_values.now)
        (flagged map.old ov.old)) result map.new ov.new }
{
    let mut t = top;
    for (p, &column) in old_columns.iter().enumerate() {
        let j = column as usize;
        if inverse[j] == 0 {
            ov[j] = old_values[p];
            t = bit_rows::mark_column(t, map, j);
        }
    }
    t
}
