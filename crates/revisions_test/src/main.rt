// Runs each call that writes into a lent matrix, accepted and then refused, and prints the answer and the revision after it;
// and calls that make a matrix, over another one. All matrices are 1 by 1.

#![tactic(auto)]

use call_codes::{Options, Verb};
use std::io;

// What an operation needs.
type Workspace = [u32; 15315];

fn main(rt: HostRuntime) -> io::Result<()> {
    let mut work: Workspace = [7; 15315];
    lent(&rt, &mut work)?;
    lent_lay(&rt)?;
    day_rows(&rt)?;
    folded(&rt)
}

// No mask and no accumulator.
fn plain(flags: u32) -> Options {
    Options {
        flags: flags,
        has_mask: false,
        accumulator: None,
    }
}

// Into a lent C that has the last revision but one at first. With no position inside the mask no cell changes.
fn lent(rt: &impl Print, work: &mut Workspace) -> io::Result<()> {
    let mut c: [u32; 12] = [1, 4294967294, 2, 1, 1, 2, 0, 0, 0, 0, 9, 9];
    test_support::heading(rt, b"a lent C: accepted, then refused")?;
    operate(rt, b"mxm", plain(0), Verb::Mxm(3, 5), &mut c, work)?;
    operate(rt, b"vxm", plain(0), Verb::Vxm(3, 5), &mut c, work)?;
    operate(
        rt,
        b"ewise_mult",
        plain(0),
        Verb::EwiseMult(3),
        &mut c,
        work,
    )?;
    operate(rt, b"ewise_add", plain(0), Verb::EwiseAdd(3), &mut c, work)?;
    operate(rt, b"apply", plain(0), Verb::Apply(0, 0, 0), &mut c, work)?;
    operate(rt, b"extract", plain(0), Verb::Extract, &mut c, work)?;
    operate(rt, b"select", plain(0), Verb::Select(0, 5), &mut c, work)?;
    operate(
        rt,
        b"reduce_rows",
        plain(0),
        Verb::ReduceRows(3),
        &mut c,
        work,
    )?;
    operate(rt, b"assign", plain(0), Verb::Assign, &mut c, work)?;
    operate(rt, b"kronecker", plain(0), Verb::Kronecker(3), &mut c, work)?;
    operate(
        rt,
        b"none inside",
        plain(2),
        Verb::EwiseAdd(3),
        &mut c,
        work,
    )
}

fn operate(
    rt: &impl Print,
    label: &[u8],
    options: Options,
    verb: Verb,
    c: &mut [u32],
    work: &mut Workspace,
) -> io::Result<()> {
    test_support::heading(rt, label)?;
    let mut short = [7u32; 9];
    operate_in(rt, options, verb, c, work)?;
    operate_in(rt, options, verb, c, &mut short)
}

// Both inputs have 5 and the revision 7.
fn operate_in(
    rt: &impl Print,
    options: Options,
    verb: Verb,
    c: &mut [u32],
    work: &mut [u32],
) -> io::Result<()> {
    let a: &[u32] = &[1, 7, 2, 1, 1, 2, 0, 1, 1, 0, 1, 5];
    let r = calls::operate(options, verb, a, a, a, &[0], &[0], c, work);
    report(rt, test_support::code(r), test_support::value(r), &c[..])
}

// The answer, and the revision afterwards.
fn report(rt: &impl Print, code: u32, entries: u32, words: &[u32]) -> io::Result<()> {
    test_support::print_pair(rt, b"answer: ", code, entries)?;
    let r = revision::revision_of(words);
    test_support::print_pair(
        rt,
        b"  revision: ",
        test_support::code(r),
        test_support::value(r),
    )
}

// A lay over a matrix starts at 0; refused, it leaves the revision.
fn lent_lay(rt: &impl Print) -> io::Result<()> {
    let mut c: [u32; 12] = [1, 7, 2, 1, 1, 2, 0, 0, 0, 0, 9, 9];
    test_support::heading(rt, b"a lay: refused, then accepted")?;
    lay(rt, &mut c, 0)?;
    lay(rt, &mut c, 1)?;
    let checked = matrix::check(&c);
    report(
        rt,
        test_support::code(checked),
        test_support::value(checked),
        &c,
    )
}

fn lay(rt: &impl Print, c: &mut [u32], rows: u32) -> io::Result<()> {
    let r = create::new_empty(c, rows, 1);
    report(rt, test_support::code(r), test_support::value(r), &c[..])
}

// Rows of a day matrix: rewritten, refused; taken back, taken back though unmarked, refused. The marks have the last
// revision at first.
fn day_rows(rt: &impl Print) -> io::Result<()> {
    let mut day: [u32; 12] = [1, 7, 2, 1, 1, 2, 0, 0, 0, 0, 9, 9];
    let mut marks: [u32; 12] = [1, 4294967295, 2, 1, 1, 2, 0, 0, 0, 0, 9, 9];
    test_support::heading(
        rt,
        b"a row of a day matrix: rewritten, refused; taken back, again, refused",
    )?;
    rewrite(rt, &mut day, &mut marks, 0)?;
    rewrite(rt, &mut day, &mut marks, 1)?;
    take_back(rt, &mut day, &mut marks, 0)?;
    take_back(rt, &mut day, &mut marks, 0)?;
    take_back(rt, &mut day, &mut marks, 1)
}

fn rewrite(rt: &impl Print, day: &mut [u32], marks: &mut [u32], i: u32) -> io::Result<()> {
    let row: &[u32] = &[1, 7, 2, 1, 1, 2, 0, 1, 1, 0, 1, 5];
    let r = day_calls::rewrite_row(day, marks, i, row);
    report(rt, test_support::code(r), test_support::value(r), &day[..])?;
    report_marks(rt, &marks[..])
}

fn take_back(rt: &impl Print, day: &mut [u32], marks: &mut [u32], i: u32) -> io::Result<()> {
    let r = day_calls::take_back(day, marks, i);
    report(rt, test_support::code(r), test_support::value(r), &day[..])?;
    report_marks(rt, &marks[..])
}

fn report_marks(rt: &impl Print, marks: &[u32]) -> io::Result<()> {
    let r = revision::revision_of(marks);
    test_support::print_pair(
        rt,
        b"  of the marks: ",
        test_support::code(r),
        test_support::value(r),
    )
}

// A day matrix folded into a buffer that holds a matrix of revision 7: refused, it stays; the folded one starts at 0.
fn folded(rt: &impl Print) -> io::Result<()> {
    let day: &[u32] = &[1, 7, 2, 1, 1, 2, 0, 1, 1, 0, 1, 5];
    let mut out: [u32; 12] = [1, 7, 2, 1, 1, 2, 0, 0, 0, 0, 9, 9];
    test_support::heading(rt, b"folded: refused, then accepted")?;
    fold(rt, &day[..11], day, &mut out)?;
    fold(rt, day, day, &mut out)
}

fn fold<'a>(rt: &impl Print, base: &'a [u32], day: &'a [u32], out: &mut [u32]) -> io::Result<()> {
    let r = day_calls::fold(base, day, day, out);
    report(rt, test_support::code(r), test_support::value(r), &out[..])
}
