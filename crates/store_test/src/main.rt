// Runs the calls on a store: a list of calls that churns its room, one slot in every role, refusals in their order. For each
// call: the answer, and after an operation whether the workspace is clear; then the words.

#![tactic(auto)]

use call_codes::{Options, Verb};
use model::Roles;
use std::io;
use store_runs::{clear, drop, lay, read, set};

// What an operation needs.
type Workspace = [u32; 15315];

fn main(rt: HostRuntime) -> io::Result<()> {
    let mut work: Workspace = [7; 15315];
    one_list(&rt, &mut work)?;
    several_roles(&rt, &mut work)?;
    refusals_in_order(&rt, &mut work)
}

// No mask and no accumulator.
fn plain(flags: u32) -> Options {
    Options {
        flags: flags,
        has_mask: false,
        accumulator: None,
    }
}

fn masked(flags: u32) -> Options {
    Options {
        flags: flags,
        has_mask: true,
        accumulator: None,
    }
}

// The slots for A, B, the mask and C. A slot for what a call does not have is not looked at.
fn roles(a: usize, b: usize, mask: usize, c: usize) -> Roles {
    Roles {
        first: a,
        second: b,
        mask: mask,
        output: c,
    }
}

fn product(
    rt: &impl Print,
    store: &mut [u32],
    options: Options,
    a: usize,
    b: usize,
    mask: usize,
    c: usize,
    work: &mut [u32],
) -> io::Result<()> {
    let named = roles(a, b, mask, c);
    let r = store_calls::operate(store, options, Verb::Mxm(3, 5), named, &[], &[], work);
    done(
        rt,
        b"mxm",
        test_support::code(r),
        test_support::value(r),
        &store[..],
        &work[..],
    )
}

fn union(
    rt: &impl Print,
    store: &mut [u32],
    options: Options,
    op: u32,
    a: usize,
    b: usize,
    c: usize,
    work: &mut [u32],
) -> io::Result<()> {
    let named = roles(a, b, 9, c);
    let r = store_calls::operate(store, options, Verb::EwiseAdd(op), named, &[], &[], work);
    done(
        rt,
        b"ewise_add",
        test_support::code(r),
        test_support::value(r),
        &store[..],
        &work[..],
    )
}

fn intersection(
    rt: &impl Print,
    store: &mut [u32],
    options: Options,
    op: u32,
    a: usize,
    b: usize,
    c: usize,
    work: &mut [u32],
) -> io::Result<()> {
    let named = roles(a, b, 9, c);
    let r = store_calls::operate(store, options, Verb::EwiseMult(op), named, &[], &[], work);
    done(
        rt,
        b"ewise_mult",
        test_support::code(r),
        test_support::value(r),
        &store[..],
        &work[..],
    )
}

fn vector_product(
    rt: &impl Print,
    store: &mut [u32],
    options: Options,
    u: usize,
    a: usize,
    c: usize,
    work: &mut [u32],
) -> io::Result<()> {
    let named = roles(u, a, 9, c);
    let r = store_calls::operate(store, options, Verb::Vxm(3, 5), named, &[], &[], work);
    done(
        rt,
        b"vxm",
        test_support::code(r),
        test_support::value(r),
        &store[..],
        &work[..],
    )
}

fn apply(
    rt: &impl Print,
    store: &mut [u32],
    options: Options,
    kind: u32,
    op: u32,
    scalar: u32,
    a: usize,
    c: usize,
    work: &mut [u32],
) -> io::Result<()> {
    let named = roles(a, 9, 9, c);
    let r = store_calls::operate(
        store,
        options,
        Verb::Apply(kind, op, scalar),
        named,
        &[],
        &[],
        work,
    );
    done(
        rt,
        b"apply",
        test_support::code(r),
        test_support::value(r),
        &store[..],
        &work[..],
    )
}

fn extract(
    rt: &impl Print,
    store: &mut [u32],
    a: usize,
    is: &[u32],
    js: &[u32],
    c: usize,
    work: &mut [u32],
) -> io::Result<()> {
    let named = roles(a, 9, 9, c);
    let r = store_calls::operate(store, plain(0), Verb::Extract, named, is, js, work);
    done(
        rt,
        b"extract",
        test_support::code(r),
        test_support::value(r),
        &store[..],
        &work[..],
    )
}

// The same with the first n words of the workspace.
fn extract_in(
    rt: &impl Print,
    store: &mut [u32],
    a: usize,
    is: &[u32],
    js: &[u32],
    c: usize,
    n: usize,
    work: &mut [u32],
) -> io::Result<()> {
    if n <= work.len() {
        extract(rt, store, a, is, js, c, &mut work[..n])?;
    }
    Ok(())
}

fn done(
    rt: &impl Print,
    label: &[u8],
    code: u32,
    entries: u32,
    store: &[u32],
    work: &[u32],
) -> io::Result<()> {
    test_support::print_call(rt, label, code, entries, work)?;
    if store.len() <= 64 {
        test_support::show(rt, b"store", store)?;
    }
    Ok(())
}

// A list of calls in 46 words: cells come and go before others, slots are dropped and laid again.
fn one_list(rt: &impl Print, work: &mut Workspace) -> io::Result<()> {
    let mut words = [0u32; 46];
    test_support::heading(rt, b"a list of calls in 46 words")?;
    lay(rt, &mut words, 2, 1, 2)?;
    lay(rt, &mut words, 0, 2, 2)?;
    set(rt, &mut words, 2, 0, 1, 5)?;
    set(rt, &mut words, 0, 1, 0, 4294967295)?;
    set(rt, &mut words, 0, 0, 1, 3)?;
    set(rt, &mut words, 2, 0, 1, 6)?;
    read(rt, &words, 2, 0, 1)?;
    read(rt, &words, 0, 0, 0)?;
    union(rt, &mut words, plain(0), 3, 0, 0, 0, work)?;
    clear(rt, &mut words, 0, 0, 1)?;
    clear(rt, &mut words, 0, 0, 1)?;
    lay(rt, &mut words, 1, 1, 1)?;
    drop(rt, &mut words, 0)?;
    drop(rt, &mut words, 0)?;
    lay(rt, &mut words, 1, 1, 1)?;
    lay(rt, &mut words, 0, 2, 1)?;
    vector_product(rt, &mut words, plain(0), 2, 0, 1, work)?;
    apply(rt, &mut words, plain(0), 3, 1, 10, 2, 2, work)
}

// One slot as both inputs, mask and C: all are read before C is written.
fn several_roles(rt: &impl Print, work: &mut Workspace) -> io::Result<()> {
    let mut words = [0u32; 46];
    test_support::heading(rt, b"one slot in every role")?;
    lay(rt, &mut words, 7, 2, 2)?;
    set(rt, &mut words, 7, 0, 1, 2)?;
    set(rt, &mut words, 7, 1, 0, 3)?;
    set(rt, &mut words, 7, 1, 1, 1)?;
    product(rt, &mut words, masked(0), 7, 7, 7, 7, work)?;
    product(rt, &mut words, plain(0), 7, 7, 9, 7, work)?;
    intersection(rt, &mut words, plain(8), 4, 7, 7, 7, work)?;
    extract(rt, &mut words, 7, &[1, 0], &[0, 1], 7, work)
}

// Several refusals apply to each call; the first of 12, 1, 2, 13, 7, 8, 9, 10, 11 is given.
fn refusals_in_order(rt: &impl Print, work: &mut Workspace) -> io::Result<()> {
    let mut words = [0u32; 31];
    test_support::heading(rt, b"refusals in their order")?;
    lay(rt, &mut words, 0, 2, 2)?;
    set(rt, &mut words, 0, 0, 0, 1)?;
    lay(rt, &mut words, 1, 1, 1)?;
    union(rt, &mut words, plain(32), 8, 8, 2, 1, work)?;
    union(rt, &mut words, plain(32), 8, 2, 2, 1, work)?;
    union(rt, &mut words, plain(0), 8, 2, 2, 1, work)?;
    union(rt, &mut words, plain(0), 3, 2, 2, 1, work)?;
    extract_in(rt, &mut words, 0, &[2], &[], 0, 9, work)?;
    extract_in(rt, &mut words, 0, &[1, 0], &[1, 1], 0, 9, work)?;
    extract_in(rt, &mut words, 0, &[1], &[1], 0, 9, work)?;
    extract_in(rt, &mut words, 0, &[1], &[1], 1, 15314, work)?;
    extract(rt, &mut words, 0, &[0], &[0], 1, work)?;
    set(rt, &mut words, 8, 9, 9, 1)?;
    set(rt, &mut words, 2, 9, 9, 1)?;
    set(rt, &mut words, 1, 1, 0, 1)?;
    set(rt, &mut words, 1, 0, 0, 1)?;
    clear(rt, &mut words, 2, 0, 0)?;
    clear(rt, &mut words, 1, 0, 0)?;
    lay(rt, &mut words, 8, 0, 1)?;
    lay(rt, &mut words, 2, 0, 1)?;
    lay(rt, &mut words, 2, 1, 1)?;
    drop(rt, &mut words, 8)?;
    read(rt, &words, 8, 9, 9)?;
    read(rt, &words, 2, 9, 9)?;
    read(rt, &words, 1, 0, 1)
}
