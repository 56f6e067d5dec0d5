// What the programs that run the calls on a store share: each call on one slot with its report, the answer and then the words
// of a small store.

#![tactic(auto)]

use std::io;

pub fn lay(
    rt: &impl Print,
    store: &mut [u32],
    slot: usize,
    rows: u32,
    cols: u32,
) -> io::Result<()> {
    let r = store_cells::new_empty(store, slot, rows, cols);
    report(
        rt,
        b"lay: ",
        test_support::code(r),
        test_support::value(r),
        &store[..],
    )
}

pub fn drop(rt: &impl Print, store: &mut [u32], slot: usize) -> io::Result<()> {
    let r = store_cells::drop_slot(store, slot);
    report(
        rt,
        b"drop: ",
        test_support::code(r),
        test_support::value(r),
        &store[..],
    )
}

pub fn set(
    rt: &impl Print,
    store: &mut [u32],
    slot: usize,
    i: u32,
    j: u32,
    value: u32,
) -> io::Result<()> {
    let r = store_cells::set_cell(store, slot, i, j, value);
    report(
        rt,
        b"set: ",
        test_support::code(r),
        test_support::value(r),
        &store[..],
    )
}

pub fn clear(rt: &impl Print, store: &mut [u32], slot: usize, i: u32, j: u32) -> io::Result<()> {
    let r = store_cells::clear_cell(store, slot, i, j);
    report(
        rt,
        b"clear: ",
        test_support::code(r),
        test_support::value(r),
        &store[..],
    )
}

pub fn read(rt: &impl Print, store: &[u32], slot: usize, i: u32, j: u32) -> io::Result<()> {
    let r = store_cells::read_cell(store, slot, i, j);
    let code = test_support::code(r);
    match test_support::cell_value(r) {
        Some(value) => test_support::print_pair(rt, b"read, present: ", code, value)?,
        None => test_support::print_pair(rt, b"read, absent: ", code, 0)?,
    }
    test_support::print_word(rt, b"  at position", test_support::cell_position(r))
}

fn report(rt: &impl Print, label: &[u8], code: u32, entries: u32, store: &[u32]) -> io::Result<()> {
    test_support::print_pair(rt, label, code, entries)?;
    if store.len() <= 64 {
        test_support::show(rt, b"store", store)?;
    }
    Ok(())
}
