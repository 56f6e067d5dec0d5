// One merge of sparse rows, for the intersection, the union and the write-back, by case. Without a mask the write-back
// is a copy, a union or nothing (`row_pairs`). With one, here is what becomes of the cells at one position, and the
// walk over two rows and a mask's row by their entries.

#![tactic(auto)]

ghost use Rattle.std.specs.Prelude.{◌≡◌, ◌+◌, ◌≤◌, ◌<◌, min, length, get_or};
ghost use Rattle.rows.specs.Row.{position, Rises, Row, Holds};
ghost use Rattle.operations.specs.CellOperations.{unite};
ghost use Rattle.operations.specs.WriteBacks.{accumulated, mask_holds, masked, inside, write_back};
ghost use Rattle.merge.specs.Combined.{combined_row};
ghost use Rattle.merge.specs.Ways.{Means, written_row};
ghost use Rattle.merge.specs.Steps.{Cursor, Put};

use grid::Cell;
use operations::{Accumulator, WriteBack};
use operators::BinaryOp;

// How the cells of two rows make one. Only the write-back looks at the mask.
#[derive(Clone, Copy, Debug, PartialEq, Eq)]
pub enum Combine {
    Intersect(BinaryOp),
    Unite(BinaryOp),
    Write(WriteBack),
}

// The same by the simplest means: nothing, one of the two rows, a walk over both, or the write-back under a mask.
#[derive(Clone, Copy, Debug, PartialEq, Eq)]
enum Way {
    Nothing,
    First,
    Second,
    Intersect(BinaryOp),
    Unite(BinaryOp),
    Masked(WriteBack),
}

// Two rows of `places` columns, (cc, cv) and (tc, tv), made into one under the mask's row (mc, mv). The result is left
// at the front of `oc` and `ov`, and its number of entries returned. Only the columns where one of the two has an entry
// are looked at: where both have none, the result has none.
pub fn merge_row(
    how: Combine,
    places: u32,
    mc: &[u32],
    mv: &[u32],
    cc: &[u32],
    cv: &[u32],
    tc: &[u32],
    tv: &[u32],
    oc: &mut [u32],
    ov: &mut [u32],
) -> usize
    requires row { Row places mc.now mv.now }
    requires row_2 { Row places cc.now cv.now }
    requires row_3 { Row places tc.now tv.now }
    requires places_in_bounds { (places ≤ length oc.old) × (places ≤ length ov.old) }
    ensures { Holds places
        (combined_row how mc.now mv.now cc.now cv.now
        tc.now tv.now)
        result oc.new ov.new }
{
    match way_of(how) {
        Way::Nothing => 0,
        Way::First => row_pairs::copy_row(places, cc, cv, oc, ov),
        Way::Second => row_pairs::copy_row(places, tc, tv, oc, ov),
        Way::Intersect(op) => row_pairs::intersect_rows(op, places, cc, cv, tc, tv, oc, ov),
        Way::Unite(op) => row_pairs::unite_rows(op, places, cc, cv, tc, tv, oc, ov),
        Way::Masked(w) => write_masked(w, places, mc, mv, cc, cv, tc, tv, oc, ov),
    }
}

// The way for each of the three.
fn way_of(how: Combine) -> Way
    ensures { Means result how }
{
    match how {
        Combine::Intersect(op) => Way::Intersect(op),
        Combine::Unite(op) => Way::Unite(op),
        Combine::Write(w) => write_way(w),
    }
}

// The way to write back. Without a mask every position is inside, and with complement none.
fn write_way(w: WriteBack) -> Way
    ensures { Means result (Combine.Write w) }
{
    if w.has_mask {
        return Way::Masked(w);
    }
    if w.complement {
        return if w.replace { Way::Nothing } else { Way::First };
    }
    match w.accumulator {
        None => Way::Second,
        Some(op) => Way::Unite(op),
    }
}

// The write-back of T, the row (tc, tv), over the old C under the mask's row.
fn write_masked(
    w: WriteBack,
    places: u32,
    mc: &[u32],
    mv: &[u32],
    cc: &[u32],
    cv: &[u32],
    tc: &[u32],
    tv: &[u32],
    oc: &mut [u32],
    ov: &mut [u32],
) -> usize
    requires mask_row { Row places mc.now mv.now }
    requires old_row { Row places cc.now cv.now }
    requires new_row { Row places tc.now tv.now }
    requires output_room { (places ≤ length oc.old) × (places ≤ length ov.old) }
    ensures { Holds places
        (written_row w mc.now mv.now cc.now cv.now
        tc.now tv.now)
        result oc.new ov.new }
{
    // Kept: three indexes that move by the data, which no iterator has.
    let mut m = 0;
    let mut i = 0;
    let mut k = 0;
    let mut e = 0;
    let mut q = next_column(cc, i, tc, k, places);
    while q < places {
        m = seek(mc, m, q);
        let cell = write_back_at(w, q, mc, mv, m, cc, cv, i, tc, tv, k);
        e = put_cell(oc, ov, e, q, cell);
        i = past(cc, i, q);
        k = past(tc, k, q);
        q = next_column(cc, i, tc, k, places);
    }
    e
}

// The column number at index i, or `places` past the last.
fn head(columns: &[u32], i: usize, places: u32) -> u32
    ensures { result ≡ get_or columns.now i places }
{
    columns.get(i).copied().unwrap_or(places)
}

// The next column where one of two rows has an entry, or `places`.
fn next_column(cc: &[u32], i: usize, tc: &[u32], k: usize, places: u32) -> u32
    ensures { result ≡ min (get_or cc.now i places) (get_or tc.now k places) }
{
    head(cc, i, places).min(head(tc, k, places))
}

// The position of column q, from an index that is not past it.
fn seek(columns: &[u32], i: usize, q: u32) -> usize
    requires rises { Rises columns.now }
    requires i_bound { i ≤ position q columns.now }
    ensures { result ≡ position q columns.now }
{
    for k in i..columns.len() {
        if q <= columns[k] {
            return k;
        }
    }
    columns.len()
}

// The position of the column after q, from that of q.
fn past(columns: &[u32], i: usize, q: u32) -> usize
    requires rises { Rises columns.now }
    requires stands { i ≡ position q columns.now }
    ensures { result ≡ position (q + 1) columns.now }
{
    if i < columns.len() && columns[i] <= q {
        i + 1
    } else {
        i
    }
}

// The final cell at column q, whose positions in the three rows are m, i and k.
fn write_back_at(
    w: WriteBack,
    q: u32,
    mc: &[u32],
    mv: &[u32],
    m: usize,
    cc: &[u32],
    cv: &[u32],
    i: usize,
    tc: &[u32],
    tv: &[u32],
    k: usize,
) -> Cell
    requires at_mask { Cursor mc.now mv.now m q }
    requires at_old { Cursor cc.now cv.now i q }
    requires at_new { Cursor tc.now tv.now k q }
    ensures { result ≡
        written_row w mc.now mv.now cc.now cv.now
        tc.now tv.now q }
{
    write_back_cell(
        w,
        rows::cell_at(mc, mv, m, q),
        rows::cell_at(cc, cv, i, q),
        rows::cell_at(tc, tv, k, q),
    )
}

// Puts the entry of a cell at column q, if there is one, behind e entries. Returns how many there are then. An entry
// whose value is 0 counts like any other.
fn put_cell(oc: &mut [u32], ov: &mut [u32], e: usize, q: u32, cell: Cell) -> usize
    requires { (e < length oc.old) × (e < length ov.old) }
    ensures { Put oc.old ov.old oc.new ov.new e q cell result }
{
    match cell {
        None => e,
        Some(v) => {
            oc[e] = q;
            ov[e] = v;
            e + 1
        }
    }
}

// The operator where both are present; a lone value is passed as it is, from either side.
pub fn unite_cells(op: BinaryOp, a: Cell, b: Cell) -> Cell
    ensures { result ≡ unite op a b }
{
    match a {
        None => b,
        Some(x) => match b {
            None => a,
            Some(y) => Some(operators::apply_binary(op, x, y)),
        },
    }
}

// Z: T without an accumulator, else the union of the old C and T under it, the old C first.
pub fn accumulate(accumulator: Accumulator, c: Cell, t: Cell) -> Cell
    ensures { result ≡ accumulated accumulator c t }
{
    match accumulator {
        None => t,
        Some(op) => unite_cells(op, c, t),
    }
}

// Whether the mask's cell is present and nonzero, or just present for a structural mask.
pub fn mask_holds(structural: bool, m: Cell) -> bool
    ensures { result ≡ mask_holds structural m }
{
    match m {
        None => false,
        Some(v) => structural || v != 0,
    }
}

// The mask before it is complemented: no mask means every position.
pub fn mask_selects(w: WriteBack, m: Cell) -> bool
    ensures { result ≡ masked w m }
{
    !w.has_mask || mask_holds(w.structural, m)
}

// Whether the position is inside the mask.
pub fn inside_mask(w: WriteBack, m: Cell) -> bool
    ensures { result ≡ inside w m }
{
    w.complement != mask_selects(w, m)
}

// Inside the mask C takes Z, emptiness included. Outside it keeps its entry, or loses it under replace.
pub fn write_back_cell(w: WriteBack, m: Cell, c: Cell, t: Cell) -> Cell
    ensures { result ≡ write_back w m c t }
{
    if inside_mask(w, m) {
        return accumulate(w.accumulator, c, t);
    }
    if w.replace { None } else { c }
}
