// The row of a mask as bits: the columns whose entries count, and what of a row lies inside the mask.

#![tactic(auto)]

ghost use Rattle.std.specs.Prelude.{◌≡◌, ◌<◌, length};
ghost use Rattle.limits.specs.Limits.{max_cols};
ghost use Rattle.rows.specs.Row.{lookup, Row};
ghost use Rattle.bit_rows.specs.Bits.{map_words, Tracked};
ghost use Rattle.mask_rows.specs.Masks.{Unmarked, EntryMarked, MaskMarked, UnderMask, KeptInside};

use bit_rows::MAP_WORDS;
use operations::WriteBack;

// Keeps of the marked columns those inside the mask, whose row is mc and mv.
pub fn keep_inside(w: WriteBack, mc: &[u32], mv: &[u32], map: &mut [u64; MAP_WORDS])
    requires fact_1 { UnderMask w mc.now mv.now }
    requires fact_2 { length map.old ≡ map_words }
    ensures { KeptInside w (lookup mc.now mv.now) map.old map.new }
{
    let mut marks = [0u64; MAP_WORDS];
    mark_mask(w.structural, mc, mv, &mut marks);
    bit_rows::keep_columns(w.complement, &marks, map);
}

// Marks the columns of a mask's row that count, in a map that has no marks.
fn mark_mask(structural: bool, columns: &[u32], values: &[u32], map: &mut [u64; MAP_WORDS])
    requires row { Row max_cols columns.now values.now }
    requires unmarked { Unmarked map.old }
    ensures { MaskMarked structural columns.now values.now map.new }
{
    let mut top: u64 = 0;
    for (p, &j) in columns.iter().enumerate() {
        top = mark_entry(structural, values[p], top, map, j as usize);
    }
}

// Marks column j if an entry of value v counts: the new top word.
fn mark_entry(structural: bool, v: u32, top: u64, map: &mut [u64; MAP_WORDS], j: usize) -> u64
    requires column_in_bounds { j < max_cols }
    requires tracked { Tracked top map.old }
    ensures { EntryMarked structural v j map.old result map.new }
{
    if merge::mask_holds(structural, Some(v)) {
        bit_rows::mark_column(top, map, j)
    } else {
        top
    }
}
