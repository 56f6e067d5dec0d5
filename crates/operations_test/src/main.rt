// Runs the six operations: the examples of source 002 that document 01 has operators for, scaled to whole numbers, and the
// write-backs P7 to P12. C's spare words are 9.

#![tactic(auto)]

use call_codes::Options;
use operation_runs::{accumulated, apply, ewise_add, ewise_mult, extract, masked, mxm, plain, vxm};
use std::io;

// One word more than a call needs.
type Workspace = [u32; 15316];

fn main(rt: HostRuntime) -> io::Result<()> {
    let mut work: Workspace = [7; 15316];
    matrix_product(&rt, &mut work)?;
    vector_products(&rt, &mut work)?;
    reductions(&rt, &mut work)?;
    intersection(&rt, &mut work)?;
    union(&rt, &mut work)?;
    extracts(&rt, &mut work)?;
    applies(&rt, &mut work)?;
    transposed(&rt, &mut work)?;
    write_backs(&rt, &mut work)
}

// MIN with PLUS, scaled by 4: 5.5 at (2, 1) is 22.
fn matrix_product(rt: &impl Print, work: &mut Workspace) -> io::Result<()> {
    let mut a = [0u32; 23];
    let mut b = [0u32; 29];
    let mut c = [9u32; 32];
    let starts: &[u32] = &[0, 2, 4, 5, 5];
    let columns: &[u32] = &[1, 2, 2, 3, 3];
    test_support::store(&mut a, 4, 4, starts, columns, &[8, 20, 6, 17, 2]);
    let starts: &[u32] = &[0, 2, 4, 6, 8];
    let columns: &[u32] = &[1, 2, 0, 1, 1, 2, 0, 1];
    let values: &[u32] = &[12, 8, 36, 24, 12, 4, 0, 20];
    test_support::store(&mut b, 4, 3, starts, columns, values);
    let _ = create::new_empty(&mut c, 4, 3);
    test_support::heading(rt, b"products")?;
    mxm(rt, b"mxm, min_plus", plain(0), 6, 3, &a, &b, &mut c, work)
}

// A matrix times a vector with PLUS and TIMES, the matrix scaled by 4: the vector times its transpose. PLUS with PLUS.
fn vector_products(rt: &impl Print, work: &mut Workspace) -> io::Result<()> {
    let v: &[u32] = &[1, 0, 2, 1, 4, 2, 0, 3, 3, 0, 1, 3, 3, 10, 20, 40];
    let mut a = [0u32; 23];
    let mut b = [0u32; 29];
    let mut c = [9u32; 18];
    let starts: &[u32] = &[0, 2, 4, 5, 5];
    let columns: &[u32] = &[1, 2, 2, 3, 3];
    test_support::store(&mut a, 4, 4, starts, columns, &[8, 20, 6, 17, 2]);
    let starts: &[u32] = &[0, 2, 4, 6, 8];
    let columns: &[u32] = &[1, 2, 0, 1, 1, 2, 0, 1];
    let values: &[u32] = &[3, 2, 9, 6, 3, 1, 0, 5];
    test_support::store(&mut b, 4, 3, starts, columns, values);
    let b: &[u32] = &b;
    let _ = create::new_empty(&mut c, 1, 4);
    vxm(rt, b"mxv, plus_times", plain(16), 3, 5, v, &a, &mut c, work)?;
    let _ = create::new_empty(&mut c, 1, 3);
    vxm(rt, b"vxm, plus_plus", plain(0), 3, 3, v, b, &mut c, work)?;
    let _ = create::new_empty(&mut c, 1, 3);
    vxm(rt, b"vxm, flag 8", plain(8), 3, 3, v, b, &mut c, work)
}

// By columns with TIMES, and to one value with MAX, scaled by 2: products with a vector of ones.
fn reductions(rt: &impl Print, work: &mut Workspace) -> io::Result<()> {
    let ones: &[u32] = &[1, 0, 2, 1, 3, 2, 0, 3, 3, 0, 1, 2, 3, 1, 1, 1];
    let more: &[u32] = &[1, 0, 2, 1, 4, 2, 0, 4, 4, 0, 1, 2, 3, 4, 1, 1, 1, 1];
    let mut a = [0u32; 24];
    let mut c = [9u32; 16];
    let mut s = [9u32; 14];
    let columns: &[u32] = &[1, 3, 0, 1, 0, 1];
    let values: &[u32] = &[4, 10, 3, 8, 1, 4294967282];
    test_support::store(&mut a, 3, 4, &[0, 2, 4, 6], columns, values);
    let a: &[u32] = &a;
    test_support::heading(rt, b"reductions")?;
    let _ = create::new_empty(&mut c, 1, 4);
    vxm(rt, b"columns, times", plain(0), 5, 1, ones, a, &mut c, work)?;
    let _ = create::new_empty(&mut c, 1, 4);
    vxm(rt, b"columns, max", plain(0), 7, 1, ones, a, &mut c, work)?;
    let _ = create::new_empty(&mut s, 1, 1);
    vxm(rt, b"value, max", plain(16), 7, 0, &c, more, &mut s, work)
}

// MIN, scaled by 2.
fn intersection(rt: &impl Print, work: &mut Workspace) -> io::Result<()> {
    let mut a = [0u32; 22];
    let mut b = [0u32; 24];
    let mut c = [9u32; 30];
    let columns: &[u32] = &[1, 2, 0, 2, 1];
    let values: &[u32] = &[4, 10, 3, 8, 1];
    test_support::store(&mut a, 3, 3, &[0, 2, 4, 5], columns, values);
    let columns: &[u32] = &[1, 2, 0, 1, 1, 2];
    let values: &[u32] = &[6, 4294967292, 0, 12, 6, 2];
    test_support::store(&mut b, 3, 3, &[0, 2, 4, 6], columns, values);
    let _ = create::new_empty(&mut c, 3, 3);
    test_support::heading(rt, b"intersection and union")?;
    ewise_mult(rt, b"ewise_mult, min", plain(0), 6, &a, &b, &mut c, work)
}

// MINUS, scaled by 2: a value on one side alone stays as it is.
fn union(rt: &impl Print, work: &mut Workspace) -> io::Result<()> {
    let mut a = [0u32; 22];
    let mut b = [0u32; 24];
    let mut c = [9u32; 30];
    let columns: &[u32] = &[0, 1, 2, 0, 2];
    let values: &[u32] = &[18, 4, 10, 3, 8];
    test_support::store(&mut a, 3, 3, &[0, 3, 5, 5], columns, values);
    let columns: &[u32] = &[0, 1, 2, 0, 1, 2];
    let values: &[u32] = &[8, 0, 4294967292, 12, 6, 2];
    test_support::store(&mut b, 3, 3, &[0, 3, 3, 6], columns, values);
    let _ = create::new_empty(&mut c, 3, 3);
    let a: &[u32] = &a;
    ewise_add(rt, b"ewise_add, minus", plain(0), 4, a, &b, a, &mut c, work)
}

// The first four columns of a vector; rows 0 and 2 of a matrix, scaled by 2; rows and columns of its transpose in another
// order.
fn extracts(rt: &impl Print, work: &mut Workspace) -> io::Result<()> {
    let v: &[u32] = &[
        1, 0, 2, 1, 7, 2, 0, 5, 5, 0, 1, 3, 4, 6, 5, 10, 2, 40, 4294967291, 24,
    ];
    let mut a = [0u32; 24];
    let mut w = [9u32; 18];
    let mut c = [9u32; 21];
    let columns: &[u32] = &[1, 2, 0, 1, 0, 2];
    let values: &[u32] = &[4, 10, 3, 8, 1, 4294967282];
    test_support::store(&mut a, 3, 3, &[0, 2, 4, 6], columns, values);
    let a: &[u32] = &a;
    test_support::heading(rt, b"extract")?;
    let _ = create::new_empty(&mut w, 1, 4);
    extract(rt, b"slice", plain(0), v, &[0], &[0, 1, 2, 3], &mut w, work)?;
    let _ = create::new_empty(&mut c, 2, 3);
    extract(rt, b"rows", plain(0), a, &[0, 2], &[0, 1, 2], &mut c, work)?;
    let _ = create::new_empty(&mut c, 2, 2);
    extract(
        rt,
        b"reordered",
        plain(8),
        a,
        &[1, 0],
        &[1, 0],
        &mut c,
        work,
    )
}

// The four kinds: unary, on the smallest value, 0 and -5; MINUS with 15 first and second; COLINDEX.
fn applies(rt: &impl Print, work: &mut Workspace) -> io::Result<()> {
    let u: &[u32] = &[
        1, 0, 2, 1, 4, 2, 0, 3, 3, 0, 1, 3, 3, 2147483648, 0, 4294967291,
    ];
    let v: &[u32] = &[1, 0, 2, 1, 4, 2, 0, 3, 3, 0, 1, 3, 3, 10, 20, 40];
    let mut c = [9u32; 18];
    let _ = create::new_empty(&mut c, 1, 4);
    test_support::heading(rt, b"apply")?;
    apply(rt, b"unary, ainv", plain(0), 0, 1, 0, u, u, &mut c, work)?;
    apply(rt, b"unary, abs", plain(0), 0, 2, 0, u, u, &mut c, work)?;
    apply(rt, b"unary, lnot", plain(0), 0, 3, 0, u, u, &mut c, work)?;
    apply(
        rt,
        b"minus, 15 first",
        plain(0),
        1,
        4,
        15,
        v,
        v,
        &mut c,
        work,
    )?;
    apply(
        rt,
        b"minus, 15 second",
        plain(0),
        2,
        4,
        15,
        v,
        v,
        &mut c,
        work,
    )?;
    apply(rt, b"colindex", plain(0), 3, 1, 0, v, v, &mut c, work)
}

// The transpose, scaled by 2; ROWINDEX and DIAGINDEX with 100, by the row and column after transposing.
fn transposed(rt: &impl Print, work: &mut Workspace) -> io::Result<()> {
    let mut a = [0u32; 24];
    let mut c = [9u32; 27];
    let columns: &[u32] = &[1, 3, 0, 1, 0, 2];
    let values: &[u32] = &[4, 10, 3, 8, 1, 4294967282];
    test_support::store(&mut a, 3, 4, &[0, 2, 4, 6], columns, values);
    let _ = create::new_empty(&mut c, 4, 3);
    let a: &[u32] = &a;
    test_support::heading(rt, b"transpose")?;
    apply(rt, b"identity", plain(8), 0, 0, 0, a, a, &mut c, work)?;
    apply(rt, b"rowindex", plain(8), 3, 0, 100, a, a, &mut c, work)?;
    apply(rt, b"diagindex", plain(8), 3, 2, 100, a, a, &mut c, work)
}

// P7 to P12, with IDENTITY for the operation; then an accumulator that tells old C from T; and flags with nothing to act
// on.
fn write_backs(rt: &impl Print, work: &mut Workspace) -> io::Result<()> {
    test_support::heading(rt, b"write-back")?;
    write_back(rt, b"mask", masked(0), work)?;
    write_back(rt, b"mask, replace", masked(1), work)?;
    write_back(rt, b"structural mask", masked(4), work)?;
    write_back(rt, b"complement", masked(2), work)?;
    write_back(rt, b"mask, plus", accumulated(0, true, 3), work)?;
    write_back(rt, b"no mask, complement, replace", plain(3), work)?;
    write_back(rt, b"no mask, minus", accumulated(0, false, 4), work)?;
    write_back(rt, b"nothing for flags 4 and 16", plain(20), work)
}

fn write_back(rt: &impl Print, label: &[u8], options: Options, work: &mut [u32]) -> io::Result<()> {
    let mut c: [u32; 19] = [1, 0, 2, 1, 4, 2, 0, 3, 3, 0, 1, 2, 3, 1, 2, 3, 9, 9, 9];
    let t: [u32; 14] = [1, 0, 2, 1, 4, 2, 0, 2, 2, 1, 3, 2, 9, 9];
    let mask: [u32; 16] = [1, 0, 2, 1, 4, 2, 0, 3, 3, 0, 1, 3, 3, 1, 0, 5];
    apply(rt, label, options, 0, 0, 0, &t, &mask, &mut c, work)
}
