// Runs the operations on both sides of the limits: entries, lengths of the buffers, a large T, index lists. C's spare words
// are 9.

#![tactic(auto)]

use call_codes::{Options, Verb};
use operation_runs::{accumulated, extract, masked, mxm, plain, refill, report};
use std::io;
use test_support::past;

// One word more than a call needs.
type Workspace = [u32; 15316];

fn main(rt: HostRuntime) -> io::Result<()> {
    let mut work: Workspace = [7; 15316];
    entries_at_limit(&rt, &mut work)?;
    result_under_mask(&rt, &mut work)?;
    shortest_lists(&rt, &mut work)?;
    longest_column_lists(&rt, &mut work)?;
    longest_row_lists(&rt, &mut work)
}

// 5 by 512, with an entry in the last row at first. T has 2,048 entries in the other rows: with an accumulator the
// final C has one more. It takes 4,110 words.
fn entries_at_limit(rt: &impl Print, work: &mut Workspace) -> io::Result<()> {
    let mut v = [0u32; 1034];
    let mut c = [9u32; 4112];
    build_full(&mut v, 512);
    let v: &[u32] = &v;
    test_support::store(&mut c, 5, 512, &[0, 0, 0, 0, 0, 1], &[0], &[50]);
    let plus = accumulated(8, false, 3);
    test_support::heading(rt, b"limits")?;
    outer(rt, 4112, 15315, b"2049 entries", plus, v, &mut c, work)?;
    outer(rt, 4109, 15315, b"4109 words", plain(8), v, &mut c, work)?;
    outer(rt, 4110, 15314, b"work of 15314", plain(8), v, &mut c, work)?;
    outer(rt, 4110, 15315, b"work of 15315", plain(8), v, &mut c, work)?;
    outer(rt, 4112, 15315, b"2048 entries", plus, v, &mut c, work)
}

// The products of 1, 2, 3, 4 with the entries of v, in the first n words of C's buffer and m of the workspace.
fn outer(
    rt: &impl Print,
    n: usize,
    m: usize,
    label: &[u8],
    options: Options,
    v: &[u32],
    c: &mut [u32],
    work: &mut [u32],
) -> io::Result<()> {
    if n <= c.len() {
        outer_in(rt, m, label, options, v, &mut c[..n], work)?;
    }
    Ok(())
}

fn outer_in(
    rt: &impl Print,
    m: usize,
    label: &[u8],
    options: Options,
    v: &[u32],
    c: &mut [u32],
    work: &mut [u32],
) -> io::Result<()> {
    let u: [u32; 18] = [1, 0, 2, 1, 5, 2, 0, 4, 4, 0, 1, 2, 3, 4, 1, 2, 3, 4];
    if m <= work.len() {
        mxm(rt, label, options, 3, 5, &u, v, c, &mut work[..m])?;
    }
    Ok(())
}

// 1 by n, all present: 0, 1, 2 and so on.
fn build_full(words: &mut [u32], n: u32) {
    let cols = n as usize;
    let _ = create::new_empty(words, 1, n);
    test_support::put(words, 7, n);
    test_support::put(words, 8, n);
    test_support::put_run(words, 9, cols, 1, 4294967295);
    test_support::put(words, past(9, cols), n);
    test_support::put_run(words, past(10, cols), cols, 1, 4294967295);
}

// T has 1,000,000 entries: too many without a mask. The mask has one entry, and the final C too.
fn result_under_mask(rt: &impl Print, work: &mut Workspace) -> io::Result<()> {
    let mut v = [0u32; 2010];
    let mut mask = [0u32; 1011];
    let mut c = [9u32; 1013];
    build_full(&mut v, 1000);
    build_mask(&mut mask);
    let v: &[u32] = &v;
    let mask: &[u32] = &mask;
    let _ = create::new_empty(&mut c, 1000, 1000);
    test_support::heading(rt, b"a large T")?;
    square(rt, b"no mask", plain(8), v, mask, &mut c, work)?;
    square(rt, b"mask", masked(8), v, mask, &mut c, work)?;
    square(rt, b"complement", masked(10), v, mask, &mut c, work)
}

// The products of all pairs of entries of v, under a mask.
fn square(
    rt: &impl Print,
    label: &[u8],
    options: Options,
    v: &[u32],
    mask: &[u32],
    c: &mut [u32],
    work: &mut [u32],
) -> io::Result<()> {
    refill(work);
    let r = calls::operate(options, Verb::Mxm(3, 5), v, v, mask, v, v, c, work);
    report(
        rt,
        label,
        test_support::code(r),
        test_support::value(r),
        &c[..],
        &work[..],
    )
}

// 1,000 by 1,000 with one entry, 1 at (999, 4).
fn build_mask(words: &mut [u32]) {
    let _ = create::new_empty(words, 1000, 1000);
    test_support::put(words, 1006, 1);
    test_support::put(words, 1007, 1);
    test_support::put(words, 1008, 4);
    test_support::put(words, 1009, 1);
    test_support::put(words, 1010, 1);
}

// Lists of 0 indexes and of 1.
fn shortest_lists(rt: &impl Print, work: &mut Workspace) -> io::Result<()> {
    let v: &[u32] = &[1, 0, 2, 1, 4, 2, 0, 3, 3, 0, 1, 3, 3, 10, 20, 40];
    let mut c = [9u32; 14];
    let _ = create::new_empty(&mut c, 1, 1);
    test_support::heading(rt, b"index lists")?;
    extract(rt, b"0 rows", plain(0), v, &[], &[0], &mut c, work)?;
    extract(rt, b"0 columns", plain(0), v, &[0], &[], &mut c, work)?;
    extract(rt, b"1", plain(0), v, &[0], &[3], &mut c, work)
}

// Lists of 1,001 and 1,000 columns: 0, 1, 2, .., 999, 0, and without the first.
fn longest_column_lists(rt: &impl Print, work: &mut Workspace) -> io::Result<()> {
    let mut v = [0u32; 2010];
    let mut c = [9u32; 2012];
    let mut list = [0u32; 1001];
    build_full(&mut v, 1000);
    test_support::put_run(&mut list, 0, 1001, 1, 999);
    let v: &[u32] = &v;
    let _ = create::new_empty(&mut c, 1, 1000);
    extract(rt, b"1001 columns", plain(0), v, &[0], &list, &mut c, work)?;
    extract(
        rt,
        b"1000 columns",
        plain(0),
        v,
        &[0],
        &list[1..],
        &mut c,
        work,
    )
}

// The same lists for rows: those of the transposed input.
fn longest_row_lists(rt: &impl Print, work: &mut Workspace) -> io::Result<()> {
    let mut v = [0u32; 2010];
    let mut c = [9u32; 3011];
    let mut list = [0u32; 1001];
    build_full(&mut v, 1000);
    test_support::put_run(&mut list, 0, 1001, 1, 999);
    let v: &[u32] = &v;
    let _ = create::new_empty(&mut c, 1000, 1);
    extract(rt, b"1001 rows", plain(8), v, &list, &[0], &mut c, work)?;
    extract(
        rt,
        b"1000 rows",
        plain(8),
        v,
        &list[1..],
        &[0],
        &mut c,
        work,
    )
}
