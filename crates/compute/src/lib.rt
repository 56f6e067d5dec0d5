// Working out the final C of a call whose inputs are valid and agree. Inputs, mask and old C are only read; the result
// is left at the front of the workspace, whose other regions hold the inputs that are transposed.

#![tactic(auto)]

ghost use Rattle.std.specs.Prelude.{◌≡◌, true, cond, [], ◌≤◌, ◌<◌, length};
ghost use Rattle.rows.specs.Row.{Row, Holds, lookup};
ghost use Rattle.matrix.specs.Facts.{Header, RowSpan};
ghost use Rattle.matrix.specs.Layout.{rows, cols, row_columns, row_values, cell_of, grid_of, workspace_words};
ghost use Rattle.operations.specs.GridOperations.{result_grid};
ghost use Rattle.operations.specs.WriteBacks.{write_back};
ghost use Rattle.operations.specs.Calls.{transpose_first, write_back_of};
ghost use Rattle.requests.specs.Refusal.{lent_final};
ghost use Rattle.requests.specs.Inputs.{Ready};
ghost use Rattle.result_rows.specs.RowInputs.{RowInputs, Buffers};
ghost use Rattle.masked_rows.specs.Inside.{HoldsInside};
ghost use Rattle.sources.specs.Sources.{second_flag, Sources};
ghost use Rattle.plain_results.specs.Rows.{Inputs};
ghost use Rattle.compute.specs.Computing.{Prepared, MaskRow, MaskThere, OldRow, plain, straight, RowBuffers};
ghost use Rattle.compute.specs.Computing.{Progress, Advanced, Computed};

use answers::Refusal;
use extract_rows::INVERSE_PLACES;
use limits::{MAX_ENTRIES, ROW_PLACES};
use matrix::layout::MAX_MATRIX_WORDS;
use merge::Combine;
use operations::{Call, Operation, WriteBack};
use products::Engine;
use sources::{FIRST_AT, REGIONS_END, SECOND_AT};

// The final C at the front of the workspace, and the number of its entries, or the refusal of too many. An operation with
// lists has their inverses as its second input. The engine is the product's.
pub fn compute<'a>(
    call: Call,
    a: &'a [u32],
    b: &'a [u32],
    mask: &[u32],
    c: &[u32],
    is: &[u32],
    js: &[u32],
    work: &mut [u32],
    engine: Engine,
) -> Result<usize, Refusal>
    requires ready { Ready call a.now b.now mask.now c.now is.now js.now }
    requires space { workspace_words ≤ length work.old }
    ensures { Computed result (lent_final call a.now b.now mask.now c.now
        is.now js.now) work.new }
{
    if operations::inputs_of(call.operation).lists {
        let mut inverses = [0u32; INVERSE_PLACES];
        extract_rows::invert_lists(is, js, &mut inverses);
        return compute_prepared(call, a, &inverses, mask, c, is, js, work, engine);
    }
    compute_prepared(call, a, b, mask, c, is, js, work, engine)
}

// The same with a second input that can be read.
fn compute_prepared<'a>(
    call: Call,
    a: &'a [u32],
    b: &'a [u32],
    mask: &[u32],
    c: &[u32],
    is: &[u32],
    js: &[u32],
    work: &mut [u32],
    engine: Engine,
) -> Result<usize, Refusal>
    requires prepared { Prepared call a.now b.now mask.now c.now is.now js.now }
    requires space { workspace_words ≤ length work.old }
    ensures { Computed result (lent_final call a.now b.now mask.now c.now
        is.now js.now) work.new }
{
    let first = requests::transpose_first(call);
    sources::orient(first, a, &mut work[FIRST_AT..SECOND_AT]);
    let second = sources::second_flag(call);
    sources::orient(second, b, &mut work[SECOND_AT..REGIONS_END]);
    compute_rows(call, first, second, a, b, mask, c, is, js, work, engine)
}

// How the call writes back.
fn write_back_of(call: Call) -> WriteBack
    ensures { result ≡ write_back_of call }
{
    WriteBack {
        replace: requests::flag_set(1, call.flags),
        complement: requests::flag_set(2, call.flags),
        structural: requests::flag_set(4, call.flags),
        has_mask: call.has_mask,
        accumulator: call.accumulator,
    }
}

// The columns and the values of the mask's row i, or none where there is no mask.
fn mask_row<'a>(masked: bool, mask: &'a [u32], i: usize) -> (&'a [u32], &'a [u32])
    requires { masked ≡ true → MaskRow mask.now i }
    ensures columns { result.0.now ≡ cond masked (row_columns mask.now i) [] }
    ensures values { result.1.now ≡ cond masked (row_values mask.now i) [] }
{
    if !masked {
        return (&mask[0..0], &mask[0..0]);
    }
    (matrix::row_columns(mask, i), matrix::row_values(mask, i))
}

// Row i of the final C, from old C, the mask and the row of T. Where both rows have no entries, it has none.
fn write_row(
    w: WriteBack,
    mask: &[u32],
    c: &[u32],
    tc: &[u32],
    tv: &[u32],
    i: usize,
    oc: &mut [u32],
    ov: &mut [u32],
) -> usize
    requires old_row { OldRow w mask.now c.now tc.now tv.now i }
    requires c_in_bounds { (cols c.now ≤ length oc.old) × (cols c.now ≤ length ov.old) }
    ensures { Holds (cols c.now)
        (λ j. write_back w (cell_of mask.now i j) (cell_of c.now i j)
        (lookup tc.now tv.now j))
        result oc.new ov.new }
{
    if both_empty(tc, c, i) {
        return 0;
    }
    let (mc, mv) = mask_row(w.has_mask, mask, i);
    merge::merge_row(
        Combine::Write(w),
        matrix::col_count(c),
        mc,
        mv,
        matrix::row_columns(c, i),
        matrix::row_values(c, i),
        tc,
        tv,
        oc,
        ov,
    )
}

// Whether neither the row of T nor row i of old C has entries.
fn both_empty(tc: &[u32], c: &[u32], i: usize) -> bool
    requires header { Header c.now }
    requires span { RowSpan c.now i }
    ensures { result ≡ true → (length tc.now ≡ 0) × (length (row_columns c.now i) ≡ 0) }
{
    tc.is_empty() && matrix::row_columns(c, i).is_empty()
}

// Row i of T, as far as the mask lets it through.
fn row_inside(
    engine: Engine,
    w: WriteBack,
    mask: &[u32],
    operation: Operation,
    a: &[u32],
    b: &[u32],
    c: &[u32],
    is: &[u32],
    js: &[u32],
    i: usize,
    tc: &mut [u32],
    tv: &mut [u32],
) -> usize
    requires row_inputs { RowInputs operation a.now b.now c.now is.now js.now i }
    requires buffers { Buffers (result_grid operation (grid_of a.now) (grid_of b.now) (grid_of c.now) is.now js.now)
        tc.old tv.old }
    requires mask_there { MaskThere w mask.now i }
    ensures { HoldsInside w (cell_of mask.now i)
        (result_grid operation (grid_of a.now) (grid_of b.now)
        (grid_of c.now) is.now js.now).cols
        ((result_grid operation (grid_of a.now) (grid_of b.now)
        (grid_of c.now) is.now js.now).cell i)
        result tc.new tv.new }
{
    let (mc, mv) = mask_row(w.has_mask, mask, i);
    masked_rows::result_row_inside(engine, w, mc, mv, operation, a, b, c, is, js, i, tc, tv)
}

// Row i of the final C: the row of T, written back.
fn final_row<'a>(
    call: Call,
    first: bool,
    second: bool,
    a: &'a [u32],
    b: &'a [u32],
    mask: &[u32],
    c: &[u32],
    is: &[u32],
    js: &[u32],
    work: &'a [u32],
    i: usize,
    tc: &mut [u32],
    tv: &mut [u32],
    oc: &mut [u32],
    ov: &mut [u32],
    engine: Engine,
) -> usize
    requires prepared { Prepared call a.now b.now mask.now c.now is.now js.now }
    requires sources { Sources call a.now b.now work.now }
    requires flags { (first ≡ transpose_first call) × (second ≡ second_flag call) }
    requires space { workspace_words ≤ length work.now }
    requires row { i < rows c.now }
    requires buffers { RowBuffers tc.old tv.old oc.old ov.old }
    ensures { Holds (cols c.now)
        ((lent_final call a.now b.now mask.now c.now
        is.now js.now).cell i)
        result oc.new ov.new }
{
    let x = sources::choose(first, &work[FIRST_AT..SECOND_AT], a);
    let y = sources::choose(second, &work[SECOND_AT..REGIONS_END], b);
    let w = write_back_of(call);
    let t = row_inside(engine, w, mask, call.operation, x, y, c, is, js, i, tc, tv);
    write_row(w, mask, c, &tc[..t], &tv[..t], i, oc, ov)
}

// One more row is staged: the number of entries so far, or the refusal of too many.
fn advance<'a>(
    call: Call,
    first: bool,
    second: bool,
    a: &'a [u32],
    b: &'a [u32],
    mask: &[u32],
    c: &[u32],
    is: &[u32],
    js: &[u32],
    work: &mut [u32],
    total: usize,
    i: usize,
    n: usize,
    tc: &mut [u32],
    tv: &mut [u32],
    oc: &mut [u32],
    ov: &mut [u32],
    engine: Engine,
) -> Result<usize, Refusal>
    requires progress { Progress call a.now b.now mask.now c.now is.now js.now first second work.old tc.old
        tv.old oc.old ov.old total n i }
    requires row { i < total }
    ensures { Advanced call a.now b.now mask.now c.now
        is.now js.now first second work.new tc.new tv.new
        oc.new ov.new total result i }
{
    let m = final_row(
        call,
        first,
        second,
        a,
        b,
        mask,
        c,
        is,
        js,
        &work[..],
        i,
        tc,
        tv,
        oc,
        ov,
        engine,
    );
    let next = n + m;
    if (MAX_ENTRIES as usize) < next {
        return Err(Refusal::TooManyEntries);
    }
    results::stage_row(
        &mut work[..MAX_MATRIX_WORDS],
        total,
        i,
        n,
        &oc[..m],
        &ov[..m],
    );
    Ok(next)
}

// All rows, one after the other.
fn all_rows<'a>(
    call: Call,
    first: bool,
    second: bool,
    a: &'a [u32],
    b: &'a [u32],
    mask: &[u32],
    c: &[u32],
    is: &[u32],
    js: &[u32],
    work: &mut [u32],
    tc: &mut [u32],
    tv: &mut [u32],
    oc: &mut [u32],
    ov: &mut [u32],
    engine: Engine,
) -> Result<usize, Refusal>
    requires prepared { Prepared call a.now b.now mask.now c.now is.now js.now }
    requires sources { Sources call a.now b.now work.old }
    requires flags { (first ≡ transpose_first call) × (second ≡ second_flag call) }
    requires space { workspace_words ≤ length work.old }
    requires buffers { RowBuffers tc.old tv.old oc.old ov.old }
    ensures { Computed result (lent_final call a.now b.now mask.now c.now
        is.now js.now) work.new }
{
    let total = matrix::row_count(c) as usize;
    let mut n: usize = 0;
    for i in 0..total {
        n = advance(
            call, first, second, a, b, mask, c, is, js, work, total, i, n, tc, tv, oc, ov, engine,
        )?;
    }
    results::finish(
        &mut work[..MAX_MATRIX_WORDS],
        total,
        matrix::col_count(c) as usize,
        n,
    );
    Ok(n)
}

// All rows: written straight to their place where C takes T and no input stands in the workspace, else merged.
fn compute_rows<'a>(
    call: Call,
    first: bool,
    second: bool,
    a: &'a [u32],
    b: &'a [u32],
    mask: &[u32],
    c: &[u32],
    is: &[u32],
    js: &[u32],
    work: &mut [u32],
    engine: Engine,
) -> Result<usize, Refusal>
    requires prepared { Prepared call a.now b.now mask.now c.now is.now js.now }
    requires sources { Sources call a.now b.now work.old }
    requires flags { (first ≡ transpose_first call) × (second ≡ second_flag call) }
    requires space { workspace_words ≤ length work.old }
    ensures { Computed result (lent_final call a.now b.now mask.now c.now
        is.now js.now) work.new }
{
    if is_straight(write_back_of(call), first, second) {
        return plain_results::write_result(call.operation, a, b, c, is, js, work, engine);
    }
    merged_rows(call, first, second, a, b, mask, c, is, js, work, engine)
}

// Whether C takes T in every place, and no input is transposed.
#[tactic(auto, using(requests::proofs::Tests::and_is))]
fn is_straight(w: WriteBack, first: bool, second: bool) -> bool
    ensures { result ≡ straight w first second }
{
    !first && !second && is_plain(w)
}

// Whether C takes T in every place: no mask, no complement, no accumulator.
#[tactic(auto, using(requests::proofs::Tests::and_is))]
fn is_plain(w: WriteBack) -> bool
    ensures { result ≡ plain w }
{
    !w.has_mask && !w.complement && matches!(w.accumulator, None)
}

// All rows written back, with the buffers of a row on the stack: not inlined, so that they stand there only meanwhile.
#[inline(never)]
fn merged_rows<'a>(
    call: Call,
    first: bool,
    second: bool,
    a: &'a [u32],
    b: &'a [u32],
    mask: &[u32],
    c: &[u32],
    is: &[u32],
    js: &[u32],
    work: &mut [u32],
    engine: Engine,
) -> Result<usize, Refusal>
    requires prepared { Prepared call a.now b.now mask.now c.now is.now js.now }
    requires sources { Sources call a.now b.now work.old }
    requires flags { (first ≡ transpose_first call) × (second ≡ second_flag call) }
    requires space { workspace_words ≤ length work.old }
    ensures { Computed result (lent_final call a.now b.now mask.now c.now
        is.now js.now) work.new }
{
    let mut tc = [0u32; ROW_PLACES];
    let mut tv = [0u32; ROW_PLACES];
    let mut oc = [0u32; ROW_PLACES];
    let mut ov = [0u32; ROW_PLACES];
    all_rows(
        call, first, second, a, b, mask, c, is, js, work, &mut tc, &mut tv, &mut oc, &mut ov,
        engine,
    )
}
