// What C and other languages call, by the crate `exports_c`: each public call as one function on numbers and slices. The
// numbers come first, in the order of the wrapped function, then the buffers.
// `flags`, `has_mask`, `has_accumulator` and `accumulator` are the call's options; a `has_..` is no where it is 0, else
// yes. Any numbers and any buffers may be passed. Each call answers in one number: the code in the lower word, the
// entries of what was written or checked, the value of the cell that was read, the number that a matrix was reduced to,
// or its revision, in the upper; the position of a cell that was read is in the lower word too.

#![tactic(auto)]

ghost use Rattle.std.specs.Prelude.{◌≡◌, [], ◌≤◌, length, replicate};
ghost use Rattle.answers.specs.Results.{answer, cell_answer};
ghost use Rattle.matrix.specs.Valid.{check_answer};
ghost use Rattle.cells.specs.Read.{read_answer};
ghost use Rattle.reduce.specs.Reduce.{reduce_answer};
ghost use Rattle.revision.specs.Revision.{revision_answer};
ghost use Rattle.row_view.specs.View.{row_view, place_of};
ghost use Rattle.call_codes.specs.declared.Verb.TheVariants as verbs;
ghost use Rattle.call_codes.specs.Decoding.{decoded};
ghost use Rattle.model.specs.Calls.{new_empty, drop_slot, set_cell, clear_cell, read_cell, operate, reduce_slot, formula_into};
ghost use Rattle.exports.specs.Packing.{packed, packed_cell, packed_number, SmallRead, packed_place};
ghost use Rattle.exports.specs.Packing.{second_bit, SmallPlace};
ghost use Rattle.exports.specs.Exported.{options_of, roles_named, section_of};
ghost use Rattle.exports.specs.Files.{LentFileRead, LentFileWritten, LentTextWritten};
ghost use Rattle.exports.specs.Exported.{LentCreated, LentCompleted, StorePerformed, StoreRead, StoreTotalled};
ghost use Rattle.exports.specs.Doors.{LentDoors};
ghost use Rattle.day_calls.specs.Calls.{through_answer};
ghost use Rattle.day_calls.specs.Show.{day_view};
ghost use Rattle.exports.specs.Days.{LentRewritten, LentTakenBack, LentFolded};

use answers::Refusal;
use call_codes::{Options, Verb};
use grid::EntryAt;
use model::Roles;
use products::Engine;
use row_view::{Place, Section};

// In the answer of a read, what stands for a cell that is present.
const PRESENT: u64 = 256;

// In the answer of a look at a row, what a word of the part counts.
const COUNT_UNIT: u64 = 256;

// In the answer of a read, what 1 of the position counts.
const POSITION_UNIT: u64 = 65536;

// In an answer, what 1 in the upper word counts.
const UPPER_WORD: u64 = 4294967296;

// Whether the words begin with a valid matrix, and its entries.
pub fn ostrubel_check(words: &[u32]) -> u64
    ensures { result ≡ packed (check_answer words.now) }
{
    pack(matrix::check(words))
}

// An empty matrix at the front of the buffer.
pub fn ostrubel_new_empty(rows: u32, cols: u32, buffer: &mut [u32]) -> u64
    ensures { LentCreated buffer.old rows cols result buffer.new }
{
    pack(create::new_empty(buffer, rows, cols))
}

// One cell of a matrix.
pub fn ostrubel_read_cell(i: u32, j: u32, words: &[u32]) -> u64
    ensures { result ≡ packed_cell (read_answer words.now i j) }
{
    pack_cell(cells::read_cell(words, i, j))
}

// "Look at one row over two sheets": where the part that is shown lies; the column numbers where `values` is 0, else
// the values.
pub fn ostrubel_row_view(i: u32, values: u32, first: &[u32], second: &[u32]) -> u64
    ensures { result ≡ packed_place (place_of (row_view (section_of values) first.now
        second.now i)) }
{
    pack_place(row_view::place_shown(first, second, i, section_of(values)))
}

// "Product": C gets A times B, by a monoid and an operator.
pub fn ostrubel_mxm<'a>(
    flags: u32,
    has_mask: u32,
    has_accumulator: u32,
    accumulator: u32,
    monoid: u32,
    op: u32,
    a: &'a [u32],
    b: &'a [u32],
    mask: &[u32],
    c: &mut [u32],
    work: &mut [u32],
) -> u64
    ensures { LentCompleted (decoded (options_of flags has_mask has_accumulator accumulator) (verbs.Mxm monoid op))
        a.now b.now mask.now c.old [] [] work.old
        result c.new work.new }
{
    lent(
        flags,
        has_mask,
        has_accumulator,
        accumulator,
        Verb::Mxm(monoid, op),
        a,
        b,
        mask,
        &a[0..0],
        &a[0..0],
        c,
        work,
    )
}

// "Strip times sheet": the product with a vector u as first input.
pub fn ostrubel_vxm<'a>(
    flags: u32,
    has_mask: u32,
    has_accumulator: u32,
    accumulator: u32,
    monoid: u32,
    op: u32,
    u: &'a [u32],
    a: &'a [u32],
    mask: &[u32],
    c: &mut [u32],
    work: &mut [u32],
) -> u64
    ensures { LentCompleted (decoded (options_of flags has_mask has_accumulator accumulator) (verbs.Vxm monoid op))
        u.now a.now mask.now c.old [] [] work.old
        result c.new work.new }
{
    lent(
        flags,
        has_mask,
        has_accumulator,
        accumulator,
        Verb::Vxm(monoid, op),
        u,
        a,
        mask,
        &u[0..0],
        &u[0..0],
        c,
        work,
    )
}

// `ostrubel_mxm` by the first engine of the product, for comparison: the same answers and the same words.
pub fn ostrubel_mxm_by_places<'a>(
    flags: u32,
    has_mask: u32,
    has_accumulator: u32,
    accumulator: u32,
    monoid: u32,
    op: u32,
    a: &'a [u32],
    b: &'a [u32],
    mask: &[u32],
    c: &mut [u32],
    work: &mut [u32],
) -> u64
    ensures { LentCompleted
        (decoded (options_of flags has_mask has_accumulator accumulator) (verbs.Mxm monoid op))
        a.now b.now mask.now c.old [] [] work.old
        result c.new work.new }
{
    lent_by_places(
        flags,
        has_mask,
        has_accumulator,
        accumulator,
        Verb::Mxm(monoid, op),
        a,
        b,
        mask,
        &a[0..0],
        &a[0..0],
        c,
        work,
    )
}

// `ostrubel_vxm` by the first engine, likewise.
pub fn ostrubel_vxm_by_places<'a>(
    flags: u32,
    has_mask: u32,
    has_accumulator: u32,
    accumulator: u32,
    monoid: u32,
    op: u32,
    u: &'a [u32],
    a: &'a [u32],
    mask: &[u32],
    c: &mut [u32],
    work: &mut [u32],
) -> u64
    ensures { LentCompleted
        (decoded (options_of flags has_mask has_accumulator accumulator) (verbs.Vxm monoid op))
        u.now a.now mask.now c.old [] [] work.old
        result c.new work.new }
{
    lent_by_places(
        flags,
        has_mask,
        has_accumulator,
        accumulator,
        Verb::Vxm(monoid, op),
        u,
        a,
        mask,
        &u[0..0],
        &u[0..0],
        c,
        work,
    )
}

// "Intersection".
pub fn ostrubel_ewise_mult<'a>(
    flags: u32,
    has_mask: u32,
    has_accumulator: u32,
    accumulator: u32,
    op: u32,
    a: &'a [u32],
    b: &'a [u32],
    mask: &[u32],
    c: &mut [u32],
    work: &mut [u32],
) -> u64
    ensures { LentCompleted (decoded (options_of flags has_mask has_accumulator accumulator) (verbs.EwiseMult op))
        a.now b.now mask.now c.old [] [] work.old
        result c.new work.new }
{
    lent(
        flags,
        has_mask,
        has_accumulator,
        accumulator,
        Verb::EwiseMult(op),
        a,
        b,
        mask,
        &a[0..0],
        &a[0..0],
        c,
        work,
    )
}

// "Union".
pub fn ostrubel_ewise_add<'a>(
    flags: u32,
    has_mask: u32,
    has_accumulator: u32,
    accumulator: u32,
    op: u32,
    a: &'a [u32],
    b: &'a [u32],
    mask: &[u32],
    c: &mut [u32],
    work: &mut [u32],
) -> u64
    ensures { LentCompleted (decoded (options_of flags has_mask has_accumulator accumulator) (verbs.EwiseAdd op))
        a.now b.now mask.now c.old [] [] work.old
        result c.new work.new }
{
    lent(
        flags,
        has_mask,
        has_accumulator,
        accumulator,
        Verb::EwiseAdd(op),
        a,
        b,
        mask,
        &a[0..0],
        &a[0..0],
        c,
        work,
    )
}

// "Apply": a kind, an operator of that kind and a scalar.
pub fn ostrubel_apply(
    flags: u32,
    has_mask: u32,
    has_accumulator: u32,
    accumulator: u32,
    kind: u32,
    op: u32,
    scalar: u32,
    a: &[u32],
    mask: &[u32],
    c: &mut [u32],
    work: &mut [u32],
) -> u64
    ensures { LentCompleted (decoded (options_of flags has_mask has_accumulator accumulator) (verbs.Apply kind op scalar))
        a.now [] mask.now c.old [] [] work.old
        result c.new work.new }
{
    lent(
        flags,
        has_mask,
        has_accumulator,
        accumulator,
        Verb::Apply(kind, op, scalar),
        a,
        &a[0..0],
        mask,
        &a[0..0],
        &a[0..0],
        c,
        work,
    )
}

// "Extract": the listed rows and columns of A.
pub fn ostrubel_extract(
    flags: u32,
    has_mask: u32,
    has_accumulator: u32,
    accumulator: u32,
    a: &[u32],
    is: &[u32],
    js: &[u32],
    mask: &[u32],
    c: &mut [u32],
    work: &mut [u32],
) -> u64
    ensures { LentCompleted (decoded (options_of flags has_mask has_accumulator accumulator) verbs.Extract)
        a.now [] mask.now c.old is.now js.now work.old
        result c.new work.new }
{
    lent(
        flags,
        has_mask,
        has_accumulator,
        accumulator,
        Verb::Extract,
        a,
        &a[0..0],
        mask,
        is,
        js,
        c,
        work,
    )
}

// "Select": the entries for which a condition holds, by its number and its scalar.
pub fn ostrubel_select(
    flags: u32,
    has_mask: u32,
    has_accumulator: u32,
    accumulator: u32,
    op: u32,
    scalar: u32,
    a: &[u32],
    mask: &[u32],
    c: &mut [u32],
    work: &mut [u32],
) -> u64
    ensures { LentCompleted (decoded (options_of flags has_mask has_accumulator accumulator) (verbs.Select op scalar))
        a.now [] mask.now c.old [] [] work.old
        result c.new work.new }
{
    lent(
        flags,
        has_mask,
        has_accumulator,
        accumulator,
        Verb::Select(op, scalar),
        a,
        &a[0..0],
        mask,
        &a[0..0],
        &a[0..0],
        c,
        work,
    )
}

// "Reduce" rows: the totals of A's rows by a monoid, in one row.
pub fn ostrubel_reduce_rows(
    flags: u32,
    has_mask: u32,
    has_accumulator: u32,
    accumulator: u32,
    monoid: u32,
    a: &[u32],
    mask: &[u32],
    c: &mut [u32],
    work: &mut [u32],
) -> u64
    ensures { LentCompleted (decoded (options_of flags has_mask has_accumulator accumulator) (verbs.ReduceRows monoid))
        a.now [] mask.now c.old [] [] work.old
        result c.new work.new }
{
    lent(
        flags,
        has_mask,
        has_accumulator,
        accumulator,
        Verb::ReduceRows(monoid),
        a,
        &a[0..0],
        mask,
        &a[0..0],
        &a[0..0],
        c,
        work,
    )
}

// Assign: A written into C at the listed rows and columns.
pub fn ostrubel_assign(
    flags: u32,
    has_mask: u32,
    has_accumulator: u32,
    accumulator: u32,
    a: &[u32],
    is: &[u32],
    js: &[u32],
    mask: &[u32],
    c: &mut [u32],
    work: &mut [u32],
) -> u64
    ensures { LentCompleted (decoded (options_of flags has_mask has_accumulator accumulator) verbs.Assign)
        a.now [] mask.now c.old is.now js.now work.old
        result c.new work.new }
{
    lent(
        flags,
        has_mask,
        has_accumulator,
        accumulator,
        Verb::Assign,
        a,
        &a[0..0],
        mask,
        is,
        js,
        c,
        work,
    )
}

// The Kronecker product of A and B, by an operator.
pub fn ostrubel_kronecker<'a>(
    flags: u32,
    has_mask: u32,
    has_accumulator: u32,
    accumulator: u32,
    op: u32,
    a: &'a [u32],
    b: &'a [u32],
    mask: &[u32],
    c: &mut [u32],
    work: &mut [u32],
) -> u64
    ensures { LentCompleted (decoded (options_of flags has_mask has_accumulator accumulator) (verbs.Kronecker op))
        a.now b.now mask.now c.old [] [] work.old
        result c.new work.new }
{
    lent(
        flags,
        has_mask,
        has_accumulator,
        accumulator,
        Verb::Kronecker(op),
        a,
        b,
        mask,
        &a[0..0],
        &a[0..0],
        c,
        work,
    )
}

// "Reduce" a whole matrix: the total of its values by a monoid.
pub fn ostrubel_reduce(monoid: u32, words: &[u32]) -> u64
    ensures { result ≡ packed_number (reduce_answer words.now monoid) }
{
    pack(reduce::reduce(words, monoid))
}

// The revision of a matrix.
pub fn ostrubel_revision(words: &[u32]) -> u64
    ensures { result ≡ packed_number (revision_answer words.now) }
{
    pack(revision::revision_of(words))
}

// An empty matrix in a slot, whatever was there.
pub fn ostrubel_store_new_empty(slot: usize, rows: u32, cols: u32, store: &mut [u32]) -> u64
    ensures { StorePerformed store.old (new_empty slot rows cols) result store.new }
{
    pack(store_cells::new_empty(store, slot, rows, cols))
}

// A slot becomes empty.
pub fn ostrubel_store_drop(slot: usize, store: &mut [u32]) -> u64
    ensures { StorePerformed store.old (drop_slot slot) result store.new }
{
    pack(store_cells::drop_slot(store, slot))
}

// A cell takes a value.
pub fn ostrubel_store_set_cell(slot: usize, i: u32, j: u32, value: u32, store: &mut [u32]) -> u64
    ensures { StorePerformed store.old (set_cell slot i j value) result store.new }
{
    pack(store_cells::set_cell(store, slot, i, j, value))
}

// A cell becomes empty.
pub fn ostrubel_store_clear_cell(slot: usize, i: u32, j: u32, store: &mut [u32]) -> u64
    ensures { StorePerformed store.old (clear_cell slot i j) result store.new }
{
    pack(store_cells::clear_cell(store, slot, i, j))
}

// One cell of a slot.
pub fn ostrubel_store_read_cell(slot: usize, i: u32, j: u32, store: &[u32]) -> u64
    ensures { StoreRead store.now (read_cell slot i j) result }
{
    pack_cell(store_cells::read_cell(store, slot, i, j))
}

// "Product": C gets A times B, by a monoid and an operator.
pub fn ostrubel_store_mxm(
    flags: u32,
    has_mask: u32,
    has_accumulator: u32,
    accumulator: u32,
    monoid: u32,
    op: u32,
    a: usize,
    b: usize,
    mask: usize,
    c: usize,
    store: &mut [u32],
    work: &mut [u32],
) -> u64
    ensures { (StorePerformed store.old (operate
        (options_of flags has_mask has_accumulator accumulator) (verbs.Mxm monoid op) (roles_named a b mask c)
        [] [] (length work.old)) result store.new) × (work.new ≡ replicate (length work.old) 0) }
{
    stored(
        flags,
        has_mask,
        has_accumulator,
        accumulator,
        Verb::Mxm(monoid, op),
        Roles {
            first: a,
            second: b,
            mask: mask,
            output: c,
        },
        store,
        &[],
        &[],
        work,
    )
}

// "Strip times sheet": the product with a vector u as first input.
pub fn ostrubel_store_vxm(
    flags: u32,
    has_mask: u32,
    has_accumulator: u32,
    accumulator: u32,
    monoid: u32,
    op: u32,
    u: usize,
    a: usize,
    mask: usize,
    c: usize,
    store: &mut [u32],
    work: &mut [u32],
) -> u64
    ensures { (StorePerformed store.old (operate
        (options_of flags has_mask has_accumulator accumulator) (verbs.Vxm monoid op) (roles_named u a mask c)
        [] [] (length work.old)) result store.new) × (work.new ≡ replicate (length work.old) 0) }
{
    stored(
        flags,
        has_mask,
        has_accumulator,
        accumulator,
        Verb::Vxm(monoid, op),
        Roles {
            first: u,
            second: a,
            mask: mask,
            output: c,
        },
        store,
        &[],
        &[],
        work,
    )
}

// "Intersection".
pub fn ostrubel_store_ewise_mult(
    flags: u32,
    has_mask: u32,
    has_accumulator: u32,
    accumulator: u32,
    op: u32,
    a: usize,
    b: usize,
    mask: usize,
    c: usize,
    store: &mut [u32],
    work: &mut [u32],
) -> u64
    ensures { (StorePerformed store.old (operate
        (options_of flags has_mask has_accumulator accumulator) (verbs.EwiseMult op) (roles_named a b mask c)
        [] [] (length work.old)) result store.new) × (work.new ≡ replicate (length work.old) 0) }
{
    stored(
        flags,
        has_mask,
        has_accumulator,
        accumulator,
        Verb::EwiseMult(op),
        Roles {
            first: a,
            second: b,
            mask: mask,
            output: c,
        },
        store,
        &[],
        &[],
        work,
    )
}

// "Union".
pub fn ostrubel_store_ewise_add(
    flags: u32,
    has_mask: u32,
    has_accumulator: u32,
    accumulator: u32,
    op: u32,
    a: usize,
    b: usize,
    mask: usize,
    c: usize,
    store: &mut [u32],
    work: &mut [u32],
) -> u64
    ensures { (StorePerformed store.old (operate
        (options_of flags has_mask has_accumulator accumulator) (verbs.EwiseAdd op) (roles_named a b mask c)
        [] [] (length work.old)) result store.new) × (work.new ≡ replicate (length work.old) 0) }
{
    stored(
        flags,
        has_mask,
        has_accumulator,
        accumulator,
        Verb::EwiseAdd(op),
        Roles {
            first: a,
            second: b,
            mask: mask,
            output: c,
        },
        store,
        &[],
        &[],
        work,
    )
}

// "Apply": a kind, an operator of that kind and a scalar.
pub fn ostrubel_store_apply(
    flags: u32,
    has_mask: u32,
    has_accumulator: u32,
    accumulator: u32,
    kind: u32,
    op: u32,
    scalar: u32,
    a: usize,
    mask: usize,
    c: usize,
    store: &mut [u32],
    work: &mut [u32],
) -> u64
    ensures { (StorePerformed store.old (operate
        (options_of flags has_mask has_accumulator accumulator) (verbs.Apply kind op scalar) (roles_named a a mask c)
        [] [] (length work.old)) result store.new) × (work.new ≡ replicate (length work.old) 0) }
{
    stored(
        flags,
        has_mask,
        has_accumulator,
        accumulator,
        Verb::Apply(kind, op, scalar),
        Roles {
            first: a,
            second: a,
            mask: mask,
            output: c,
        },
        store,
        &[],
        &[],
        work,
    )
}

// "Extract": the listed rows and columns of A.
pub fn ostrubel_store_extract(
    flags: u32,
    has_mask: u32,
    has_accumulator: u32,
    accumulator: u32,
    a: usize,
    mask: usize,
    c: usize,
    store: &mut [u32],
    is: &[u32],
    js: &[u32],
    work: &mut [u32],
) -> u64
    ensures { (StorePerformed store.old (operate
        (options_of flags has_mask has_accumulator accumulator) verbs.Extract (roles_named a a mask c)
        is.now js.now (length work.old)) result store.new) × (work.new ≡ replicate (length work.old) 0) }
{
    stored(
        flags,
        has_mask,
        has_accumulator,
        accumulator,
        Verb::Extract,
        Roles {
            first: a,
            second: a,
            mask: mask,
            output: c,
        },
        store,
        is,
        js,
        work,
    )
}

// "Select": the entries for which a condition holds, by its number and its scalar.
pub fn ostrubel_store_select(
    flags: u32,
    has_mask: u32,
    has_accumulator: u32,
    accumulator: u32,
    op: u32,
    scalar: u32,
    a: usize,
    mask: usize,
    c: usize,
    store: &mut [u32],
    work: &mut [u32],
) -> u64
    ensures { (StorePerformed store.old (operate
        (options_of flags has_mask has_accumulator accumulator) (verbs.Select op scalar) (roles_named a a mask c)
        [] [] (length work.old)) result store.new) × (work.new ≡ replicate (length work.old) 0) }
{
    stored(
        flags,
        has_mask,
        has_accumulator,
        accumulator,
        Verb::Select(op, scalar),
        Roles {
            first: a,
            second: a,
            mask: mask,
            output: c,
        },
        store,
        &[],
        &[],
        work,
    )
}

// "Reduce" rows: the totals of A's rows by a monoid, in one row.
pub fn ostrubel_store_reduce_rows(
    flags: u32,
    has_mask: u32,
    has_accumulator: u32,
    accumulator: u32,
    monoid: u32,
    a: usize,
    mask: usize,
    c: usize,
    store: &mut [u32],
    work: &mut [u32],
) -> u64
    ensures { (StorePerformed store.old (operate
        (options_of flags has_mask has_accumulator accumulator) (verbs.ReduceRows monoid) (roles_named a a mask c)
        [] [] (length work.old)) result store.new) × (work.new ≡ replicate (length work.old) 0) }
{
    stored(
        flags,
        has_mask,
        has_accumulator,
        accumulator,
        Verb::ReduceRows(monoid),
        Roles {
            first: a,
            second: a,
            mask: mask,
            output: c,
        },
        store,
        &[],
        &[],
        work,
    )
}

// Assign: A written into C at the listed rows and columns.
pub fn ostrubel_store_assign(
    flags: u32,
    has_mask: u32,
    has_accumulator: u32,
    accumulator: u32,
    a: usize,
    mask: usize,
    c: usize,
    store: &mut [u32],
    is: &[u32],
    js: &[u32],
    work: &mut [u32],
) -> u64
    ensures { (StorePerformed store.old (operate
        (options_of flags has_mask has_accumulator accumulator) verbs.Assign (roles_named a a mask c)
        is.now js.now (length work.old)) result store.new) × (work.new ≡ replicate (length work.old) 0) }
{
    stored(
        flags,
        has_mask,
        has_accumulator,
        accumulator,
        Verb::Assign,
        Roles {
            first: a,
            second: a,
            mask: mask,
            output: c,
        },
        store,
        is,
        js,
        work,
    )
}

// The Kronecker product of A and B, by an operator.
pub fn ostrubel_store_kronecker(
    flags: u32,
    has_mask: u32,
    has_accumulator: u32,
    accumulator: u32,
    op: u32,
    a: usize,
    b: usize,
    mask: usize,
    c: usize,
    store: &mut [u32],
    work: &mut [u32],
) -> u64
    ensures { (StorePerformed store.old (operate
        (options_of flags has_mask has_accumulator accumulator) (verbs.Kronecker op) (roles_named a b mask c)
        [] [] (length work.old)) result store.new) × (work.new ≡ replicate (length work.old) 0) }
{
    stored(
        flags,
        has_mask,
        has_accumulator,
        accumulator,
        Verb::Kronecker(op),
        Roles {
            first: a,
            second: b,
            mask: mask,
            output: c,
        },
        store,
        &[],
        &[],
        work,
    )
}

// "Reduce" a whole matrix: the total of a slot's values by a monoid.
pub fn ostrubel_store_reduce(slot: usize, monoid: u32, store: &[u32]) -> u64
    ensures { StoreTotalled store.now (reduce_slot slot monoid) result }
{
    pack(store_reduce::reduce(store, slot, monoid))
}

// The value of a formula over the slots, in the target's place. The monoid and the operator are the semiring's.
pub fn ostrubel_store_formula(
    target: usize,
    monoid: u32,
    op: u32,
    text: &[u8],
    store: &mut [u32],
    stack: &mut [u32],
) -> u64
    ensures { (StorePerformed store.old (formula_into target monoid op text.now
        (length stack.old)) result store.new) × (stack.new ≡ replicate (length stack.old) 0) }
{
    pack(store_formulas::formula(store, target, monoid, op, text, stack))
}

// Any operation on lent matrices.
fn lent<'a>(
    flags: u32,
    has_mask: u32,
    has_accumulator: u32,
    accumulator: u32,
    verb: Verb,
    a: &'a [u32],
    b: &'a [u32],
    mask: &[u32],
    is: &[u32],
    js: &[u32],
    c: &mut [u32],
    work: &mut [u32],
) -> u64
    ensures { LentCompleted (decoded (options_of flags has_mask has_accumulator accumulator) verb)
        a.now b.now mask.now c.old is.now js.now
        work.old result c.new work.new }
{
    let options = options_of(flags, has_mask, has_accumulator, accumulator);
    pack(calls::operate(options, verb, a, b, mask, is, js, c, work))
}

// The same by the first engine of the product.
fn lent_by_places<'a>(
    flags: u32,
    has_mask: u32,
    has_accumulator: u32,
    accumulator: u32,
    verb: Verb,
    a: &'a [u32],
    b: &'a [u32],
    mask: &[u32],
    is: &[u32],
    js: &[u32],
    c: &mut [u32],
    work: &mut [u32],
) -> u64
    ensures { LentCompleted (decoded (options_of flags has_mask has_accumulator accumulator) verb)
        a.now b.now mask.now c.old is.now js.now
        work.old result c.new work.new }
{
    let options = options_of(flags, has_mask, has_accumulator, accumulator);
    pack(calls::operate_with(options, verb, a, b, mask, is, js, c, work, Engine::ByPlaces))
}

// Any operation on a store.
fn stored(
    flags: u32,
    has_mask: u32,
    has_accumulator: u32,
    accumulator: u32,
    verb: Verb,
    named: Roles,
    store: &mut [u32],
    is: &[u32],
    js: &[u32],
    work: &mut [u32],
) -> u64
    ensures fact_1 { StorePerformed store.old (operate
        (options_of flags has_mask has_accumulator accumulator) verb named
        is.now js.now (length work.old)) result store.new }
    ensures fact_2 { work.new ≡ replicate (length work.old) 0 }
{
    let options = options_of(flags, has_mask, has_accumulator, accumulator);
    pack(store_calls::operate(store, options, verb, named, is, js, work))
}

// The number of a refusal in the lower word; the entries, the number or the bytes in the upper.
fn pack(outcome: Result<u32, Refusal>) -> u64
    ensures { result ≡ packed (answer outcome) }
{
    match outcome {
        Ok(n) => n as u64 * UPPER_WORD,
        Err(refusal) => refusal.number() as u64,
    }
}

// The number of a refusal, whether the cell is present and the position in the lower word, the value in the upper.
fn pack_cell(outcome: Result<EntryAt, Refusal>) -> u64
    requires { SmallRead (cell_answer outcome) }
    ensures { result ≡ packed_cell (cell_answer outcome) }
{
    match outcome {
        Ok(EntryAt::Present { value, position }) => {
            PRESENT + position as u64 * POSITION_UNIT + value as u64 * UPPER_WORD
        }
        Ok(EntryAt::Absent { position }) => position as u64 * POSITION_UNIT,
        Err(refusal) => refusal.number() as u64,
    }
}

// The matrix in the lowest byte, the count in the rest of the lower word, where the part begins in the upper.
fn pack_place(place: Place) -> u64
    requires { SmallPlace place }
    ensures { result ≡ packed_place place }
{
    second_bit(place.in_second) + place.count as u64 * COUNT_UNIT + place.from as u64 * UPPER_WORD
}

fn second_bit(in_second: bool) -> u64
    ensures { (result ≡ second_bit in_second) × (result ≤ 1) }
{
    if in_second { 1 } else { 0 }
}

fn section_of(values: u32) -> Section
    ensures { result ≡ section_of values }
{
    if values == 0 {
        Section::Columns
    } else {
        Section::Values
    }
}

fn options_of(flags: u32, has_mask: u32, has_accumulator: u32, accumulator: u32) -> Options
    ensures { result ≡ options_of flags has_mask has_accumulator accumulator }
{
    Options {
        flags,
        has_mask: has_mask != 0,
        accumulator: if has_accumulator != 0 {
            Some(accumulator)
        } else {
            None
        },
    }
}

// The matrix of a file at the front of the words.
pub fn ostrubel_read_file(bytes: &[u8], words: &mut [u32]) -> u64
    ensures { LentFileRead bytes.now words.old result words.new }
{
    pack(files::read_file(bytes, words))
}

// The file of a matrix at the front of the bytes.
pub fn ostrubel_write_file(words: &[u32], bytes: &mut [u8]) -> u64
    ensures { LentFileWritten words.now bytes.old result bytes.new }
{
    pack(files::write_file(words, bytes))
}

// The text of a matrix at the front of the bytes.
pub fn ostrubel_write_text(words: &[u32], bytes: &mut [u8]) -> u64
    ensures { LentTextWritten words.now bytes.old result bytes.new }
{
    pack(text::write_text(words, bytes))
}

// "Keys behind doors": the doors that open within an allowance of rounds, as a vector in `out`.
pub fn ostrubel_open_doors(
    allowance: u32,
    locks: &[u32],
    cabinets: &[u32],
    hand: &[u32],
    out: &mut [u32],
    work: &mut [u32],
) -> u64
    ensures { LentDoors allowance locks.now cabinets.now hand.now
        out.old work.old result out.new work.new }
{
    pack(key_calls::open_doors(allowance, locks, cabinets, hand, out, work))
}

// "Rewriting takes a 1 by C strip": row i of the day matrix becomes `row`, and is marked with 1.
pub fn ostrubel_day_rewrite(i: u32, row: &[u32], day: &mut [u32], marks: &mut [u32]) -> u64
    ensures { LentRewritten day.old marks.old i row.now result day.new
        marks.new }
{
    pack(day_calls::rewrite_row(day, marks, i, row))
}

// "taking back empties the day row and its mark, if any".
pub fn ostrubel_day_back(i: u32, day: &mut [u32], marks: &mut [u32]) -> u64
    ensures { LentTakenBack day.old marks.old i result day.new marks.new }
{
    pack(day_calls::take_back(day, marks, i))
}

// "reading a cell through the pair".
pub fn ostrubel_day_read<'a>(i: u32, j: u32, base: &'a [u32], day: &'a [u32], marks: &[u32]) -> u64
    ensures { result ≡ packed_cell (through_answer base.now day.now marks.now i j) }
{
    pack_cell(day_calls::read_through(base, day, marks, i, j))
}

// "folding both into one new sheet", in `out`.
pub fn ostrubel_day_fold<'a>(base: &'a [u32], day: &'a [u32], marks: &[u32], out: &mut [u32]) -> u64
    ensures { LentFolded base.now day.now marks.now out.old result
        out.new }
{
    pack(day_calls::fold(base, day, marks, out))
}

// "Showing a row": where the part that is shown lies, in the day matrix, which counts as the second, or in the base
// matrix; the column numbers where `values` is 0, else the values.
pub fn ostrubel_day_show(i: u32, values: u32, base: &[u32], day: &[u32], marks: &[u32]) -> u64
    ensures { result ≡ packed_place (place_of (day_view (section_of values) base.now day.now
        marks.now i)) }
{
    pack_place(day_calls::place_shown(base, day, marks, i, section_of(values)))
}
