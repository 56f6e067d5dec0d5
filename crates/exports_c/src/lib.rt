// What C and other languages link with: each function of `exports` under its own name, with its clauses. A slice is
// passed as a pointer and the number of its words; the numbers, the buffers and the answers are as `exports` says. The
// archive of this crate is libostrubel.a (host/library.sh), and include/ostrubel.h declares its functions.

#![tactic(auto)]

ghost use Rattle.std.specs.Prelude.{◌≡◌, [], length, replicate};
ghost use Rattle.matrix.specs.Valid.{check_answer};
ghost use Rattle.cells.specs.Read.{read_answer};
ghost use Rattle.reduce.specs.Reduce.{reduce_answer};
ghost use Rattle.revision.specs.Revision.{revision_answer};
ghost use Rattle.row_view.specs.View.{row_view, place_of};
ghost use Rattle.call_codes.specs.declared.Verb.TheVariants as verbs;
ghost use Rattle.call_codes.specs.Decoding.{decoded};
ghost use Rattle.model.specs.Calls.{new_empty, drop_slot, set_cell, clear_cell, read_cell, operate, reduce_slot, formula_into};
ghost use Rattle.exports.specs.Packing.{packed, packed_cell, packed_number, packed_place};
ghost use Rattle.exports.specs.Exported.{options_of, roles_named, section_of};
ghost use Rattle.exports.specs.Files.{LentFileRead, LentFileWritten, LentTextWritten};
ghost use Rattle.exports.specs.Exported.{LentCreated, LentCompleted, StorePerformed, StoreRead, StoreTotalled};
ghost use Rattle.exports.specs.Doors.{LentDoors};
ghost use Rattle.day_calls.specs.Calls.{through_answer};
ghost use Rattle.day_calls.specs.Show.{day_view};
ghost use Rattle.exports.specs.Days.{LentRewritten, LentTakenBack, LentFolded};

// Whether the words begin with a valid matrix, and its entries.
#[unsafe(no_mangle)]
pub extern "C" fn ostrubel_check(words: &[u32]) -> u64
    ensures { result ≡ packed (check_answer words.now) }
{
    exports::ostrubel_check(words)
}

// An empty matrix at the front of the buffer.
#[unsafe(no_mangle)]
pub extern "C" fn ostrubel_new_empty(rows: u32, cols: u32, buffer: &mut [u32]) -> u64
    ensures { LentCreated buffer.old rows cols result buffer.new }
{
    exports::ostrubel_new_empty(rows, cols, buffer)
}

// One cell of a matrix.
#[unsafe(no_mangle)]
pub extern "C" fn ostrubel_read_cell(i: u32, j: u32, words: &[u32]) -> u64
    ensures { result ≡ packed_cell (read_answer words.now i j) }
{
    exports::ostrubel_read_cell(i, j, words)
}

// "Look at one row over two sheets": where the part that is shown lies; the column numbers where `values` is 0, else
// the values.
#[unsafe(no_mangle)]
pub extern "C" fn ostrubel_row_view(i: u32, values: u32, first: &[u32], second: &[u32]) -> u64
    ensures { result ≡ packed_place (place_of (row_view (section_of values) first.now
        second.now i)) }
{
    exports::ostrubel_row_view(i, values, first, second)
}

// "Product": C gets A times B, by a monoid and an operator.
#[unsafe(no_mangle)]
pub extern "C" fn ostrubel_mxm<'a>(
    flags: u32,
    has_mask: u32,
    has_accumulator: u32,
    accumulator: u32,
    monoid: u32,
    op: u32,
    a: &'a [u32],
    b: &'a [u32],
    mask: &[u32],
    c: &mut [u32],
    work: &mut [u32],
) -> u64
    ensures { LentCompleted (decoded (options_of flags has_mask has_accumulator accumulator) (verbs.Mxm monoid op))
        a.now b.now mask.now c.old [] [] work.old
        result c.new work.new }
{
    exports::ostrubel_mxm(
        flags,
        has_mask,
        has_accumulator,
        accumulator,
        monoid,
        op,
        a,
        b,
        mask,
        c,
        work,
    )
}

// "Strip times sheet": the product with a vector u as first input.
#[unsafe(no_mangle)]
pub extern "C" fn ostrubel_vxm<'a>(
    flags: u32,
    has_mask: u32,
    has_accumulator: u32,
    accumulator: u32,
    monoid: u32,
    op: u32,
    u: &'a [u32],
    a: &'a [u32],
    mask: &[u32],
    c: &mut [u32],
    work: &mut [u32],
) -> u64
    ensures { LentCompleted (decoded (options_of flags has_mask has_accumulator accumulator) (verbs.Vxm monoid op))
        u.now a.now mask.now c.old [] [] work.old
        result c.new work.new }
{
    exports::ostrubel_vxm(
        flags,
        has_mask,
        has_accumulator,
        accumulator,
        monoid,
        op,
        u,
        a,
        mask,
        c,
        work,
    )
}

// `ostrubel_mxm` by the first engine of the product, for comparison: the same answers and the same words.
#[unsafe(no_mangle)]
pub extern "C" fn ostrubel_mxm_by_places<'a>(
    flags: u32,
    has_mask: u32,
    has_accumulator: u32,
    accumulator: u32,
    monoid: u32,
    op: u32,
    a: &'a [u32],
    b: &'a [u32],
    mask: &[u32],
    c: &mut [u32],
    work: &mut [u32],
) -> u64
    ensures { LentCompleted
        (decoded (options_of flags has_mask has_accumulator accumulator) (verbs.Mxm monoid op))
        a.now b.now mask.now c.old [] [] work.old
        result c.new work.new }
{
    exports::ostrubel_mxm_by_places(
        flags,
        has_mask,
        has_accumulator,
        accumulator,
        monoid,
        op,
        a,
        b,
        mask,
        c,
        work,
    )
}

// `ostrubel_vxm` by the first engine, likewise.
#[unsafe(no_mangle)]
pub extern "C" fn ostrubel_vxm_by_places<'a>(
    flags: u32,
    has_mask: u32,
    has_accumulator: u32,
    accumulator: u32,
    monoid: u32,
    op: u32,
    u: &'a [u32],
    a: &'a [u32],
    mask: &[u32],
    c: &mut [u32],
    work: &mut [u32],
) -> u64
    ensures { LentCompleted
        (decoded (options_of flags has_mask has_accumulator accumulator) (verbs.Vxm monoid op))
        u.now a.now mask.now c.old [] [] work.old
        result c.new work.new }
{
    exports::ostrubel_vxm_by_places(
        flags,
        has_mask,
        has_accumulator,
        accumulator,
        monoid,
        op,
        u,
        a,
        mask,
        c,
        work,
    )
}

// "Intersection".
#[unsafe(no_mangle)]
pub extern "C" fn ostrubel_ewise_mult<'a>(
    flags: u32,
    has_mask: u32,
    has_accumulator: u32,
    accumulator: u32,
    op: u32,
    a: &'a [u32],
    b: &'a [u32],
    mask: &[u32],
    c: &mut [u32],
    work: &mut [u32],
) -> u64
    ensures { LentCompleted (decoded (options_of flags has_mask has_accumulator accumulator) (verbs.EwiseMult op))
        a.now b.now mask.now c.old [] [] work.old
        result c.new work.new }
{
    exports::ostrubel_ewise_mult(
        flags,
        has_mask,
        has_accumulator,
        accumulator,
        op,
        a,
        b,
        mask,
        c,
        work,
    )
}

// "Union".
#[unsafe(no_mangle)]
pub extern "C" fn ostrubel_ewise_add<'a>(
    flags: u32,
    has_mask: u32,
    has_accumulator: u32,
    accumulator: u32,
    op: u32,
    a: &'a [u32],
    b: &'a [u32],
    mask: &[u32],
    c: &mut [u32],
    work: &mut [u32],
) -> u64
    ensures { LentCompleted (decoded (options_of flags has_mask has_accumulator accumulator) (verbs.EwiseAdd op))
        a.now b.now mask.now c.old [] [] work.old
        result c.new work.new }
{
    exports::ostrubel_ewise_add(
        flags,
        has_mask,
        has_accumulator,
        accumulator,
        op,
        a,
        b,
        mask,
        c,
        work,
    )
}

// "Apply": a kind, an operator of that kind and a scalar.
#[unsafe(no_mangle)]
pub extern "C" fn ostrubel_apply(
    flags: u32,
    has_mask: u32,
    has_accumulator: u32,
    accumulator: u32,
    kind: u32,
    op: u32,
    scalar: u32,
    a: &[u32],
    mask: &[u32],
    c: &mut [u32],
    work: &mut [u32],
) -> u64
    ensures { LentCompleted (decoded (options_of flags has_mask has_accumulator accumulator) (verbs.Apply kind op scalar))
        a.now [] mask.now c.old [] [] work.old
        result c.new work.new }
{
    exports::ostrubel_apply(
        flags,
        has_mask,
        has_accumulator,
        accumulator,
        kind,
        op,
        scalar,
        a,
        mask,
        c,
        work,
    )
}

// "Extract": the listed rows and columns of A.
#[unsafe(no_mangle)]
pub extern "C" fn ostrubel_extract(
    flags: u32,
    has_mask: u32,
    has_accumulator: u32,
    accumulator: u32,
    a: &[u32],
    is: &[u32],
    js: &[u32],
    mask: &[u32],
    c: &mut [u32],
    work: &mut [u32],
) -> u64
    ensures { LentCompleted (decoded (options_of flags has_mask has_accumulator accumulator) verbs.Extract)
        a.now [] mask.now c.old is.now js.now work.old
        result c.new work.new }
{
    exports::ostrubel_extract(
        flags,
        has_mask,
        has_accumulator,
        accumulator,
        a,
        is,
        js,
        mask,
        c,
        work,
    )
}

// "Select": the entries for which a condition holds, by its number and its scalar.
#[unsafe(no_mangle)]
pub extern "C" fn ostrubel_select(
    flags: u32,
    has_mask: u32,
    has_accumulator: u32,
    accumulator: u32,
    op: u32,
    scalar: u32,
    a: &[u32],
    mask: &[u32],
    c: &mut [u32],
    work: &mut [u32],
) -> u64
    ensures { LentCompleted (decoded (options_of flags has_mask has_accumulator accumulator) (verbs.Select op scalar))
        a.now [] mask.now c.old [] [] work.old
        result c.new work.new }
{
    exports::ostrubel_select(
        flags,
        has_mask,
        has_accumulator,
        accumulator,
        op,
        scalar,
        a,
        mask,
        c,
        work,
    )
}

// "Reduce" rows: the totals of A's rows by a monoid, in one row.
#[unsafe(no_mangle)]
pub extern "C" fn ostrubel_reduce_rows(
    flags: u32,
    has_mask: u32,
    has_accumulator: u32,
    accumulator: u32,
    monoid: u32,
    a: &[u32],
    mask: &[u32],
    c: &mut [u32],
    work: &mut [u32],
) -> u64
    ensures { LentCompleted (decoded (options_of flags has_mask has_accumulator accumulator) (verbs.ReduceRows monoid))
        a.now [] mask.now c.old [] [] work.old
        result c.new work.new }
{
    exports::ostrubel_reduce_rows(
        flags,
        has_mask,
        has_accumulator,
        accumulator,
        monoid,
        a,
        mask,
        c,
        work,
    )
}

// Assign: A written into C at the listed rows and columns.
#[unsafe(no_mangle)]
pub extern "C" fn ostrubel_assign(
    flags: u32,
    has_mask: u32,
    has_accumulator: u32,
    accumulator: u32,
    a: &[u32],
    is: &[u32],
    js: &[u32],
    mask: &[u32],
    c: &mut [u32],
    work: &mut [u32],
) -> u64
    ensures { LentCompleted (decoded (options_of flags has_mask has_accumulator accumulator) verbs.Assign)
        a.now [] mask.now c.old is.now js.now work.old
        result c.new work.new }
{
    exports::ostrubel_assign(
        flags,
        has_mask,
        has_accumulator,
        accumulator,
        a,
        is,
        js,
        mask,
        c,
        work,
    )
}

// The Kronecker product of A and B, by an operator.
#[unsafe(no_mangle)]
pub extern "C" fn ostrubel_kronecker<'a>(
    flags: u32,
    has_mask: u32,
    has_accumulator: u32,
    accumulator: u32,
    op: u32,
    a: &'a [u32],
    b: &'a [u32],
    mask: &[u32],
    c: &mut [u32],
    work: &mut [u32],
) -> u64
    ensures { LentCompleted (decoded (options_of flags has_mask has_accumulator accumulator) (verbs.Kronecker op))
        a.now b.now mask.now c.old [] [] work.old
        result c.new work.new }
{
    exports::ostrubel_kronecker(
        flags,
        has_mask,
        has_accumulator,
        accumulator,
        op,
        a,
        b,
        mask,
        c,
        work,
    )
}

// "Reduce" a whole matrix: the total of its values by a monoid.
#[unsafe(no_mangle)]
pub extern "C" fn ostrubel_reduce(monoid: u32, words: &[u32]) -> u64
    ensures { result ≡ packed_number (reduce_answer words.now monoid) }
{
    exports::ostrubel_reduce(monoid, words)
}

// The revision of a matrix.
#[unsafe(no_mangle)]
pub extern "C" fn ostrubel_revision(words: &[u32]) -> u64
    ensures { result ≡ packed_number (revision_answer words.now) }
{
    exports::ostrubel_revision(words)
}

// An empty matrix in a slot, whatever was there.
#[unsafe(no_mangle)]
pub extern "C" fn ostrubel_store_new_empty(
    slot: usize,
    rows: u32,
    cols: u32,
    store: &mut [u32],
) -> u64
    ensures { StorePerformed store.old (new_empty slot rows cols) result store.new }
{
    exports::ostrubel_store_new_empty(slot, rows, cols, store)
}

// A slot becomes empty.
#[unsafe(no_mangle)]
pub extern "C" fn ostrubel_store_drop(slot: usize, store: &mut [u32]) -> u64
    ensures { StorePerformed store.old (drop_slot slot) result store.new }
{
    exports::ostrubel_store_drop(slot, store)
}

// A cell takes a value.
#[unsafe(no_mangle)]
pub extern "C" fn ostrubel_store_set_cell(
    slot: usize,
    i: u32,
    j: u32,
    value: u32,
    store: &mut [u32],
) -> u64
    ensures { StorePerformed store.old (set_cell slot i j value) result store.new }
{
    exports::ostrubel_store_set_cell(slot, i, j, value, store)
}

// A cell becomes empty.
#[unsafe(no_mangle)]
pub extern "C" fn ostrubel_store_clear_cell(slot: usize, i: u32, j: u32, store: &mut [u32]) -> u64
    ensures { StorePerformed store.old (clear_cell slot i j) result store.new }
{
    exports::ostrubel_store_clear_cell(slot, i, j, store)
}

// One cell of a slot.
#[unsafe(no_mangle)]
pub extern "C" fn ostrubel_store_read_cell(slot: usize, i: u32, j: u32, store: &[u32]) -> u64
    ensures { StoreRead store.now (read_cell slot i j) result }
{
    exports::ostrubel_store_read_cell(slot, i, j, store)
}

// "Product": C gets A times B, by a monoid and an operator.
#[unsafe(no_mangle)]
pub extern "C" fn ostrubel_store_mxm(
    flags: u32,
    has_mask: u32,
    has_accumulator: u32,
    accumulator: u32,
    monoid: u32,
    op: u32,
    a: usize,
    b: usize,
    mask: usize,
    c: usize,
    store: &mut [u32],
    work: &mut [u32],
) -> u64
    ensures { (StorePerformed store.old (operate
        (options_of flags has_mask has_accumulator accumulator) (verbs.Mxm monoid op) (roles_named a b mask c)
        [] [] (length work.old)) result store.new) × (work.new ≡ replicate (length work.old) 0) }
{
    exports::ostrubel_store_mxm(
        flags,
        has_mask,
        has_accumulator,
        accumulator,
        monoid,
        op,
        a,
        b,
        mask,
        c,
        store,
        work,
    )
}

// "Strip times sheet": the product with a vector u as first input.
#[unsafe(no_mangle)]
pub extern "C" fn ostrubel_store_vxm(
    flags: u32,
    has_mask: u32,
    has_accumulator: u32,
    accumulator: u32,
    monoid: u32,
    op: u32,
    u: usize,
    a: usize,
    mask: usize,
    c: usize,
    store: &mut [u32],
    work: &mut [u32],
) -> u64
    ensures { (StorePerformed store.old (operate
        (options_of flags has_mask has_accumulator accumulator) (verbs.Vxm monoid op) (roles_named u a mask c)
        [] [] (length work.old)) result store.new) × (work.new ≡ replicate (length work.old) 0) }
{
    exports::ostrubel_store_vxm(
        flags,
        has_mask,
        has_accumulator,
        accumulator,
        monoid,
        op,
        u,
        a,
        mask,
        c,
        store,
        work,
    )
}

// "Intersection".
#[unsafe(no_mangle)]
pub extern "C" fn ostrubel_store_ewise_mult(
    flags: u32,
    has_mask: u32,
    has_accumulator: u32,
    accumulator: u32,
    op: u32,
    a: usize,
    b: usize,
    mask: usize,
    c: usize,
    store: &mut [u32],
    work: &mut [u32],
) -> u64
    ensures { (StorePerformed store.old (operate
        (options_of flags has_mask has_accumulator accumulator) (verbs.EwiseMult op) (roles_named a b mask c)
        [] [] (length work.old)) result store.new) × (work.new ≡ replicate (length work.old) 0) }
{
    exports::ostrubel_store_ewise_mult(
        flags,
        has_mask,
        has_accumulator,
        accumulator,
        op,
        a,
        b,
        mask,
        c,
        store,
        work,
    )
}

// "Union".
#[unsafe(no_mangle)]
pub extern "C" fn ostrubel_store_ewise_add(
    flags: u32,
    has_mask: u32,
    has_accumulator: u32,
    accumulator: u32,
    op: u32,
    a: usize,
    b: usize,
    mask: usize,
    c: usize,
    store: &mut [u32],
    work: &mut [u32],
) -> u64
    ensures { (StorePerformed store.old (operate
        (options_of flags has_mask has_accumulator accumulator) (verbs.EwiseAdd op) (roles_named a b mask c)
        [] [] (length work.old)) result store.new) × (work.new ≡ replicate (length work.old) 0) }
{
    exports::ostrubel_store_ewise_add(
        flags,
        has_mask,
        has_accumulator,
        accumulator,
        op,
        a,
        b,
        mask,
        c,
        store,
        work,
    )
}

// "Apply": a kind, an operator of that kind and a scalar.
#[unsafe(no_mangle)]
pub extern "C" fn ostrubel_store_apply(
    flags: u32,
    has_mask: u32,
    has_accumulator: u32,
    accumulator: u32,
    kind: u32,
    op: u32,
    scalar: u32,
    a: usize,
    mask: usize,
    c: usize,
    store: &mut [u32],
    work: &mut [u32],
) -> u64
    ensures { (StorePerformed store.old (operate
        (options_of flags has_mask has_accumulator accumulator) (verbs.Apply kind op scalar) (roles_named a a mask c)
        [] [] (length work.old)) result store.new) × (work.new ≡ replicate (length work.old) 0) }
{
    exports::ostrubel_store_apply(
        flags,
        has_mask,
        has_accumulator,
        accumulator,
        kind,
        op,
        scalar,
        a,
        mask,
        c,
        store,
        work,
    )
}

// "Extract": the listed rows and columns of A.
#[unsafe(no_mangle)]
pub extern "C" fn ostrubel_store_extract(
    flags: u32,
    has_mask: u32,
    has_accumulator: u32,
    accumulator: u32,
    a: usize,
    mask: usize,
    c: usize,
    store: &mut [u32],
    is: &[u32],
    js: &[u32],
    work: &mut [u32],
) -> u64
    ensures { (StorePerformed store.old (operate
        (options_of flags has_mask has_accumulator accumulator) verbs.Extract (roles_named a a mask c)
        is.now js.now (length work.old)) result store.new) × (work.new ≡ replicate (length work.old) 0) }
{
    exports::ostrubel_store_extract(
        flags,
        has_mask,
        has_accumulator,
        accumulator,
        a,
        mask,
        c,
        store,
        is,
        js,
        work,
    )
}

// "Select": the entries for which a condition holds, by its number and its scalar.
#[unsafe(no_mangle)]
pub extern "C" fn ostrubel_store_select(
    flags: u32,
    has_mask: u32,
    has_accumulator: u32,
    accumulator: u32,
    op: u32,
    scalar: u32,
    a: usize,
    mask: usize,
    c: usize,
    store: &mut [u32],
    work: &mut [u32],
) -> u64
    ensures { (StorePerformed store.old (operate
        (options_of flags has_mask has_accumulator accumulator) (verbs.Select op scalar) (roles_named a a mask c)
        [] [] (length work.old)) result store.new) × (work.new ≡ replicate (length work.old) 0) }
{
    exports::ostrubel_store_select(
        flags,
        has_mask,
        has_accumulator,
        accumulator,
        op,
        scalar,
        a,
        mask,
        c,
        store,
        work,
    )
}

// "Reduce" rows: the totals of A's rows by a monoid, in one row.
#[unsafe(no_mangle)]
pub extern "C" fn ostrubel_store_reduce_rows(
    flags: u32,
    has_mask: u32,
    has_accumulator: u32,
    accumulator: u32,
    monoid: u32,
    a: usize,
    mask: usize,
    c: usize,
    store: &mut [u32],
    work: &mut [u32],
) -> u64
    ensures { (StorePerformed store.old (operate
        (options_of flags has_mask has_accumulator accumulator) (verbs.ReduceRows monoid) (roles_named a a mask c)
        [] [] (length work.old)) result store.new) × (work.new ≡ replicate (length work.old) 0) }
{
    exports::ostrubel_store_reduce_rows(
        flags,
        has_mask,
        has_accumulator,
        accumulator,
        monoid,
        a,
        mask,
        c,
        store,
        work,
    )
}

// Assign: A written into C at the listed rows and columns.
#[unsafe(no_mangle)]
pub extern "C" fn ostrubel_store_assign(
    flags: u32,
    has_mask: u32,
    has_accumulator: u32,
    accumulator: u32,
    a: usize,
    mask: usize,
    c: usize,
    store: &mut [u32],
    is: &[u32],
    js: &[u32],
    work: &mut [u32],
) -> u64
    ensures { (StorePerformed store.old (operate
        (options_of flags has_mask has_accumulator accumulator) verbs.Assign (roles_named a a mask c)
        is.now js.now (length work.old)) result store.new) × (work.new ≡ replicate (length work.old) 0) }
{
    exports::ostrubel_store_assign(
        flags,
        has_mask,
        has_accumulator,
        accumulator,
        a,
        mask,
        c,
        store,
        is,
        js,
        work,
    )
}

// The Kronecker product of A and B, by an operator.
#[unsafe(no_mangle)]
pub extern "C" fn ostrubel_store_kronecker(
    flags: u32,
    has_mask: u32,
    has_accumulator: u32,
    accumulator: u32,
    op: u32,
    a: usize,
    b: usize,
    mask: usize,
    c: usize,
    store: &mut [u32],
    work: &mut [u32],
) -> u64
    ensures { (StorePerformed store.old (operate
        (options_of flags has_mask has_accumulator accumulator) (verbs.Kronecker op) (roles_named a b mask c)
        [] [] (length work.old)) result store.new) × (work.new ≡ replicate (length work.old) 0) }
{
    exports::ostrubel_store_kronecker(
        flags,
        has_mask,
        has_accumulator,
        accumulator,
        op,
        a,
        b,
        mask,
        c,
        store,
        work,
    )
}

// "Reduce" a whole matrix: the total of a slot's values by a monoid.
#[unsafe(no_mangle)]
pub extern "C" fn ostrubel_store_reduce(slot: usize, monoid: u32, store: &[u32]) -> u64
    ensures { StoreTotalled store.now (reduce_slot slot monoid) result }
{
    exports::ostrubel_store_reduce(slot, monoid, store)
}

// The value of a formula over the slots, in the target's place. The monoid and the operator are the semiring's.
#[unsafe(no_mangle)]
pub extern "C" fn ostrubel_store_formula(
    target: usize,
    monoid: u32,
    op: u32,
    text: &[u8],
    store: &mut [u32],
    stack: &mut [u32],
) -> u64
    ensures { (StorePerformed store.old (formula_into target monoid op text.now
        (length stack.old)) result store.new) × (stack.new ≡ replicate (length stack.old) 0) }
{
    exports::ostrubel_store_formula(target, monoid, op, text, store, stack)
}

// The matrix of a file at the front of the words.
#[unsafe(no_mangle)]
pub extern "C" fn ostrubel_read_file(bytes: &[u8], words: &mut [u32]) -> u64
    ensures { LentFileRead bytes.now words.old result words.new }
{
    exports::ostrubel_read_file(bytes, words)
}

// The file of a matrix at the front of the bytes.
#[unsafe(no_mangle)]
pub extern "C" fn ostrubel_write_file(words: &[u32], bytes: &mut [u8]) -> u64
    ensures { LentFileWritten words.now bytes.old result bytes.new }
{
    exports::ostrubel_write_file(words, bytes)
}

// The text of a matrix at the front of the bytes.
#[unsafe(no_mangle)]
pub extern "C" fn ostrubel_write_text(words: &[u32], bytes: &mut [u8]) -> u64
    ensures { LentTextWritten words.now bytes.old result bytes.new }
{
    exports::ostrubel_write_text(words, bytes)
}

// "Keys behind doors": the doors that open within an allowance of rounds, as a vector in `out`.
#[unsafe(no_mangle)]
pub extern "C" fn ostrubel_open_doors(
    allowance: u32,
    locks: &[u32],
    cabinets: &[u32],
    hand: &[u32],
    out: &mut [u32],
    work: &mut [u32],
) -> u64
    ensures { LentDoors allowance locks.now cabinets.now hand.now
        out.old work.old result out.new work.new }
{
    exports::ostrubel_open_doors(allowance, locks, cabinets, hand, out, work)
}

// "Rewriting takes a 1 by C strip": row i of the day matrix becomes `row`, and is marked with 1.
#[unsafe(no_mangle)]
pub extern "C" fn ostrubel_day_rewrite(
    i: u32,
    row: &[u32],
    day: &mut [u32],
    marks: &mut [u32],
) -> u64
    ensures { LentRewritten day.old marks.old i row.now result day.new
        marks.new }
{
    exports::ostrubel_day_rewrite(i, row, day, marks)
}

// "taking back empties the day row and its mark, if any".
#[unsafe(no_mangle)]
pub extern "C" fn ostrubel_day_back(i: u32, day: &mut [u32], marks: &mut [u32]) -> u64
    ensures { LentTakenBack day.old marks.old i result day.new marks.new }
{
    exports::ostrubel_day_back(i, day, marks)
}

// "reading a cell through the pair".
#[unsafe(no_mangle)]
pub extern "C" fn ostrubel_day_read<'a>(
    i: u32,
    j: u32,
    base: &'a [u32],
    day: &'a [u32],
    marks: &[u32],
) -> u64
    ensures { result ≡ packed_cell (through_answer base.now day.now marks.now i j) }
{
    exports::ostrubel_day_read(i, j, base, day, marks)
}

// "folding both into one new sheet", in `out`.
#[unsafe(no_mangle)]
pub extern "C" fn ostrubel_day_fold<'a>(
    base: &'a [u32],
    day: &'a [u32],
    marks: &[u32],
    out: &mut [u32],
) -> u64
    ensures { LentFolded base.now day.now marks.now out.old result
        out.new }
{
    exports::ostrubel_day_fold(base, day, marks, out)
}

// "Showing a row": where the part that is shown lies, in the day matrix, which counts as the second, or in the base
// matrix; the column numbers where `values` is 0, else the values.
#[unsafe(no_mangle)]
pub extern "C" fn ostrubel_day_show(
    i: u32,
    values: u32,
    base: &[u32],
    day: &[u32],
    marks: &[u32],
) -> u64
    ensures { result ≡ packed_place (place_of (day_view (section_of values) base.now day.now
        marks.now i)) }
{
    exports::ostrubel_day_show(i, values, base, day, marks)
}
