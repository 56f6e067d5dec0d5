// What the programs that run the six operations share: options, and each call with its report: the answer, whether the
// workspace is clear, and the words of C's buffer. The workspace is filled before each call.

#![tactic(auto)]

use call_codes::{Options, Verb};
use std::io;

// No mask and no accumulator.
pub fn plain(flags: u32) -> Options {
    Options {
        flags: flags,
        has_mask: false,
        accumulator: None,
    }
}

pub fn masked(flags: u32) -> Options {
    Options {
        flags: flags,
        has_mask: true,
        accumulator: None,
    }
}

pub fn accumulated(flags: u32, has_mask: bool, accumulator: u32) -> Options {
    Options {
        flags: flags,
        has_mask: has_mask,
        accumulator: Some(accumulator),
    }
}

// The six operations, each with its report. The words of a second input, a mask and lists that a call does not have are
// not looked at.
pub fn mxm<'a>(
    rt: &impl Print,
    label: &[u8],
    options: Options,
    monoid: u32,
    op: u32,
    a: &'a [u32],
    b: &'a [u32],
    c: &mut [u32],
    work: &mut [u32],
) -> io::Result<()> {
    refill(work);
    let r = calls::operate(options, Verb::Mxm(monoid, op), a, b, a, a, a, c, work);
    report(
        rt,
        label,
        test_support::code(r),
        test_support::value(r),
        &c[..],
        &work[..],
    )
}

pub fn vxm<'a>(
    rt: &impl Print,
    label: &[u8],
    options: Options,
    monoid: u32,
    op: u32,
    u: &'a [u32],
    a: &'a [u32],
    c: &mut [u32],
    work: &mut [u32],
) -> io::Result<()> {
    refill(work);
    let r = calls::operate(options, Verb::Vxm(monoid, op), u, a, u, u, u, c, work);
    report(
        rt,
        label,
        test_support::code(r),
        test_support::value(r),
        &c[..],
        &work[..],
    )
}

pub fn ewise_mult<'a>(
    rt: &impl Print,
    label: &[u8],
    options: Options,
    op: u32,
    a: &'a [u32],
    b: &'a [u32],
    c: &mut [u32],
    work: &mut [u32],
) -> io::Result<()> {
    refill(work);
    let r = calls::operate(options, Verb::EwiseMult(op), a, b, a, a, a, c, work);
    report(
        rt,
        label,
        test_support::code(r),
        test_support::value(r),
        &c[..],
        &work[..],
    )
}

pub fn ewise_add<'a>(
    rt: &impl Print,
    label: &[u8],
    options: Options,
    op: u32,
    a: &'a [u32],
    b: &'a [u32],
    mask: &[u32],
    c: &mut [u32],
    work: &mut [u32],
) -> io::Result<()> {
    refill(work);
    let r = calls::operate(options, Verb::EwiseAdd(op), a, b, mask, a, a, c, work);
    report(
        rt,
        label,
        test_support::code(r),
        test_support::value(r),
        &c[..],
        &work[..],
    )
}

pub fn apply(
    rt: &impl Print,
    label: &[u8],
    options: Options,
    kind: u32,
    op: u32,
    scalar: u32,
    a: &[u32],
    mask: &[u32],
    c: &mut [u32],
    work: &mut [u32],
) -> io::Result<()> {
    refill(work);
    let r = calls::operate(
        options,
        Verb::Apply(kind, op, scalar),
        a,
        a,
        mask,
        a,
        a,
        c,
        work,
    );
    report(
        rt,
        label,
        test_support::code(r),
        test_support::value(r),
        &c[..],
        &work[..],
    )
}

pub fn extract(
    rt: &impl Print,
    label: &[u8],
    options: Options,
    a: &[u32],
    is: &[u32],
    js: &[u32],
    c: &mut [u32],
    work: &mut [u32],
) -> io::Result<()> {
    refill(work);
    let r = calls::operate(options, Verb::Extract, a, a, a, is, js, c, work);
    report(
        rt,
        label,
        test_support::code(r),
        test_support::value(r),
        &c[..],
        &work[..],
    )
}

// The answer and the words of C's buffer: all of them, or the first and the last.
pub fn report(
    rt: &impl Print,
    label: &[u8],
    code: u32,
    entries: u32,
    c: &[u32],
    work: &[u32],
) -> io::Result<()> {
    test_support::print_call(rt, label, code, entries, work)?;
    let n = c.len();
    if n <= 40 {
        test_support::show(rt, b"C", c)
    } else {
        test_support::show(rt, b"C begins", &c[..14])?;
        let last = n - 14;
        test_support::show(rt, b"C ends", &c[last..])
    }
}

// The words 0, 1, 2 and so on in the workspace.
pub fn refill(work: &mut [u32]) {
    let n = work.len();
    test_support::put_run(work, 0, n, 1, 4294967295);
}
