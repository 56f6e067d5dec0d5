// Runs the six operations where they are refused: each refusal in its order. C's spare words are 9.

#![tactic(auto)]

use call_codes::Options;
use operation_runs::{ewise_add, extract, masked, mxm, plain, vxm};
use std::io;

// One word more than a call needs.
type Workspace = [u32; 15316];

fn main(rt: HostRuntime) -> io::Result<()> {
    let mut work: Workspace = [7; 15316];
    early_refusals(&rt)?;
    late_refusals(&rt, &mut work)?;
    index_refusals(&rt, &mut work)?;
    shape_refusals(&rt, &mut work)
}

// Everything wrong at first, the workspace too; then the lowest refusal is mended, call by call.
fn early_refusals(rt: &impl Print) -> io::Result<()> {
    let good: &[u32] = &[1, 0, 2, 1, 2, 2, 0, 1, 1, 0, 1, 5];
    let wide: &[u32] = &[1, 0, 2, 1, 3, 2, 0, 1, 1, 2, 1, 5];
    let bad: &[u32] = &[1, 0, 2, 1, 2, 2, 0, 1, 1, 2, 1, 5];
    let mut c = [9u32; 11];
    let mut w = [7u32; 100];
    test_support::heading(rt, b"refusals in their order")?;
    ewise_add(rt, b"flags", wrong(32), 8, bad, bad, bad, &mut c, &mut w)?;
    ewise_add(rt, b"op", wrong(31), 8, bad, bad, bad, &mut c, &mut w)?;
    ewise_add(rt, b"accum", wrong(31), 3, bad, bad, bad, &mut c, &mut w)?;
    ewise_add(rt, b"A", masked(0), 3, bad, bad, bad, &mut c, &mut w)?;
    ewise_add(rt, b"B", masked(0), 3, good, bad, bad, &mut c, &mut w)?;
    ewise_add(rt, b"mask", masked(0), 3, good, good, bad, &mut c, &mut w)?;
    ewise_add(rt, b"C", masked(0), 3, good, good, wide, &mut c, &mut w)?;
    let _ = create::new_empty(&mut c, 1, 2);
    ewise_add(rt, b"shape", masked(0), 3, good, good, wide, &mut c, &mut w)?;
    ewise_add(rt, b"work", masked(0), 3, good, good, good, &mut c, &mut w)
}

// C's buffer is one word short, and then long enough.
fn late_refusals(rt: &impl Print, work: &mut Workspace) -> io::Result<()> {
    let good: &[u32] = &[1, 0, 2, 1, 2, 2, 0, 1, 1, 0, 1, 5];
    let mut short = [9u32; 11];
    let mut c = [9u32; 12];
    let _ = create::new_empty(&mut short, 1, 2);
    let _ = create::new_empty(&mut c, 1, 2);
    ewise_add(rt, b"fit", masked(0), 3, good, good, good, &mut short, work)?;
    ewise_add(rt, b"none", masked(0), 3, good, good, good, &mut c, work)
}

// A mask, and an accumulator that does not exist.
fn wrong(flags: u32) -> Options {
    Options {
        flags: flags,
        has_mask: true,
        accumulator: Some(8),
    }
}

// 7 stands between 6 and 8, looks at A as transposed, and is given where an index stands twice in one list.
fn index_refusals(rt: &impl Print, work: &mut Workspace) -> io::Result<()> {
    let v: &[u32] = &[1, 0, 2, 1, 4, 2, 0, 3, 3, 0, 1, 3, 3, 10, 20, 40];
    let mut c = [9u32; 14];
    test_support::heading(rt, b"indexes and shapes")?;
    extract(rt, b"C, column 4", plain(0), v, &[0], &[4, 3], &mut c, work)?;
    let _ = create::new_empty(&mut c, 1, 1);
    extract(rt, b"column 4", plain(0), v, &[0], &[4, 3], &mut c, work)?;
    extract(rt, b"shape", plain(0), v, &[0], &[3, 2], &mut c, work)?;
    extract(
        rt,
        b"column 3 twice",
        plain(0),
        v,
        &[0],
        &[3, 3],
        &mut c,
        work,
    )?;
    extract(rt, b"row 0 twice", plain(0), v, &[0, 0], &[3], &mut c, work)?;
    extract(rt, b"0 in both", plain(0), v, &[0], &[0], &mut c, work)?;
    extract(rt, b"column 3", plain(0), v, &[0], &[3], &mut c, work)?;
    extract(rt, b"row 1", plain(0), v, &[1], &[0], &mut c, work)?;
    extract(
        rt,
        b"transposed row 1",
        plain(8),
        v,
        &[1],
        &[0],
        &mut c,
        work,
    )?;
    extract(rt, b"column 1", plain(8), v, &[0], &[1], &mut c, work)
}

// A vector is due in vxm, and as many rows as it has columns.
fn shape_refusals(rt: &impl Print, work: &mut Workspace) -> io::Result<()> {
    let v: &[u32] = &[1, 0, 2, 1, 4, 2, 0, 3, 3, 0, 1, 3, 3, 10, 20, 40];
    let m: &[u32] = &[1, 0, 2, 2, 2, 3, 0, 0, 0, 0, 0];
    let mut c = [9u32; 14];
    let _ = create::new_empty(&mut c, 2, 2);
    mxm(rt, b"mxm, two rows", plain(0), 3, 5, m, m, &mut c, work)?;
    vxm(rt, b"vxm, two rows", plain(0), 3, 5, m, m, &mut c, work)?;
    let _ = create::new_empty(&mut c, 1, 2);
    vxm(rt, b"vxm, 4 and 2", plain(0), 3, 5, v, m, &mut c, work)
}
