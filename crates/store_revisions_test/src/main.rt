// Runs each call that writes into a matrix of a store, accepted and then refused, and prints the answer and the revision after
// it; calls that write into none; and calls that make a matrix, over another one. All matrices are 1 by 1.

#![tactic(auto)]

use call_codes::{Options, Verb};
use model::Roles;
use std::io;

// What an operation needs.
type Workspace = [u32; 15315];

fn main(rt: HostRuntime) -> io::Result<()> {
    let mut work: Workspace = [7; 15315];
    stored_cells(&rt)?;
    stored(&rt, &mut work)?;
    formulas(&rt)
}

// The answer, and the revision of slot 0 afterwards: the third word of the store. An empty slot has a 0 there.
fn report_slot(rt: &impl Print, code: u32, entries: u32, store: &[u32]) -> io::Result<()> {
    test_support::print_pair(rt, b"answer: ", code, entries)?;
    test_support::print_word(rt, b"  revision", test_support::word(store, 2))
}

// Cells of a store's slot: set, set to what it is, refused; cleared, cleared though empty, refused; then calls that write
// into no matrix.
fn stored_cells(rt: &impl Print) -> io::Result<()> {
    let mut store = [0u32; 20];
    test_support::heading(rt, b"cells of a slot")?;
    lay_slot(rt, &mut store, 1)?;
    set(rt, &mut store, 0)?;
    set(rt, &mut store, 0)?;
    set(rt, &mut store, 1)?;
    clear(rt, &mut store, 0)?;
    clear(rt, &mut store, 0)?;
    clear(rt, &mut store, 1)?;
    test_support::heading(rt, b"read, total, refused lay, lay, drop")?;
    let read = store_cells::read_cell(&store, 0, 0, 0);
    report_slot(
        rt,
        test_support::code(read),
        test_support::cell_value(read).unwrap_or(0),
        &store,
    )?;
    let total = store_reduce::reduce(&store, 0, 3);
    report_slot(
        rt,
        test_support::code(total),
        test_support::value(total),
        &store,
    )?;
    lay_slot(rt, &mut store, 0)?;
    lay_slot(rt, &mut store, 1)?;
    let dropped = store_cells::drop_slot(&mut store, 0);
    report_slot(
        rt,
        test_support::code(dropped),
        test_support::value(dropped),
        &store,
    )
}

fn lay_slot(rt: &impl Print, store: &mut [u32], rows: u32) -> io::Result<()> {
    let r = store_cells::new_empty(store, 0, rows, 1);
    report_slot(
        rt,
        test_support::code(r),
        test_support::value(r),
        &store[..],
    )
}

fn set(rt: &impl Print, store: &mut [u32], j: u32) -> io::Result<()> {
    let r = store_cells::set_cell(store, 0, 0, j, 5);
    report_slot(
        rt,
        test_support::code(r),
        test_support::value(r),
        &store[..],
    )
}

fn clear(rt: &impl Print, store: &mut [u32], j: u32) -> io::Result<()> {
    let r = store_cells::clear_cell(store, 0, 0, j);
    report_slot(
        rt,
        test_support::code(r),
        test_support::value(r),
        &store[..],
    )
}

// Each operation with slot 0 in every role: one is added, once.
fn stored(rt: &impl Print, work: &mut Workspace) -> io::Result<()> {
    let mut store = [0u32; 20];
    test_support::heading(rt, b"one slot in every role: accepted, then refused")?;
    lay_slot(rt, &mut store, 1)?;
    perform(rt, b"mxm", Verb::Mxm(3, 5), &mut store, work)?;
    perform(rt, b"vxm", Verb::Vxm(3, 5), &mut store, work)?;
    perform(rt, b"ewise_mult", Verb::EwiseMult(3), &mut store, work)?;
    perform(rt, b"ewise_add", Verb::EwiseAdd(3), &mut store, work)?;
    perform(rt, b"apply", Verb::Apply(0, 0, 0), &mut store, work)?;
    perform(rt, b"extract", Verb::Extract, &mut store, work)?;
    perform(rt, b"select", Verb::Select(0, 5), &mut store, work)?;
    perform(rt, b"reduce_rows", Verb::ReduceRows(3), &mut store, work)?;
    perform(rt, b"assign", Verb::Assign, &mut store, work)?;
    perform(rt, b"kronecker", Verb::Kronecker(3), &mut store, work)
}

fn perform(
    rt: &impl Print,
    label: &[u8],
    verb: Verb,
    store: &mut [u32],
    work: &mut Workspace,
) -> io::Result<()> {
    test_support::heading(rt, label)?;
    let mut short = [7u32; 9];
    perform_in(rt, verb, store, work)?;
    perform_in(rt, verb, store, &mut short)
}

fn perform_in(rt: &impl Print, verb: Verb, store: &mut [u32], work: &mut [u32]) -> io::Result<()> {
    let options = Options {
        flags: 0,
        has_mask: true,
        accumulator: None,
    };
    let roles = Roles {
        first: 0,
        second: 0,
        mask: 0,
        output: 0,
    };
    let r = store_calls::operate(store, options, verb, roles, &[0], &[0], work);
    report_slot(
        rt,
        test_support::code(r),
        test_support::value(r),
        &store[..],
    )
}

// A formula over its own slot: refused, it stays; the copy starts at 0.
fn formulas(rt: &impl Print) -> io::Result<()> {
    let mut store = [0u32; 20];
    let mut stack = [7u32; 65000];
    test_support::heading(rt, b"a formula: refused, then accepted")?;
    lay_slot(rt, &mut store, 1)?;
    set(rt, &mut store, 0)?;
    formula(rt, b"0+", &mut store, &mut stack)?;
    formula(rt, b"0", &mut store, &mut stack)
}

fn formula(rt: &impl Print, text: &[u8], store: &mut [u32], stack: &mut [u32]) -> io::Result<()> {
    let r = store_formulas::formula(store, 0, 3, 5, text, stack);
    report_slot(
        rt,
        test_support::code(r),
        test_support::value(r),
        &store[..],
    )
}
