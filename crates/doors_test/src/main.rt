// Runs "keys behind doors" by both programs, the repeated product (`rounds`) and the two questions that ask each other
// (`questions`): for each the answer, whether the workspace is clear, and the words of the answer's buffer, which has
// 0, 1, 2 and so on before the call. Of a long buffer only the last word is printed.

#![tactic(auto)]

use std::io;

// What a call needs.
type Workspace = [u32; 15315];

fn main(rt: HostRuntime) -> io::Result<()> {
    let mut work: Workspace = [7; 15315];
    house(&rt, &mut work)?;
    refusals_in_order(&rt, &mut work)?;
    corridor(&rt, &mut work)
}

// Both programs, on the same words.
fn both(
    rt: &impl Print,
    label: &[u8],
    allowance: u32,
    locks: &[u32],
    cabinets: &[u32],
    hand: &[u32],
    out: &mut [u32],
    work: &mut [u32],
) -> io::Result<()> {
    test_support::heading(rt, label)?;
    by_rounds(rt, allowance, locks, cabinets, hand, out, work)?;
    by_questions(rt, allowance, locks, cabinets, hand, out, work)
}

fn by_rounds(
    rt: &impl Print,
    allowance: u32,
    locks: &[u32],
    cabinets: &[u32],
    hand: &[u32],
    out: &mut [u32],
    work: &mut [u32],
) -> io::Result<()> {
    refill(out, work);
    let r = key_calls::open_doors(allowance, locks, cabinets, hand, out, work);
    report(
        rt,
        b"rounds",
        test_support::code(r),
        test_support::value(r),
        &out[..],
        &work[..],
    )
}

fn by_questions(
    rt: &impl Print,
    allowance: u32,
    locks: &[u32],
    cabinets: &[u32],
    hand: &[u32],
    out: &mut [u32],
    work: &mut [u32],
) -> io::Result<()> {
    refill(out, work);
    let r = key_calls::ask_doors(allowance, locks, cabinets, hand, out, work);
    report(
        rt,
        b"questions",
        test_support::code(r),
        test_support::value(r),
        &out[..],
        &work[..],
    )
}

fn refill(out: &mut [u32], work: &mut [u32]) {
    let room = out.len();
    test_support::put_run(out, 0, room, 1, 4294967295);
    let n = work.len();
    test_support::put_run(work, 0, n, 1, 4294967295);
}

fn report(
    rt: &impl Print,
    label: &[u8],
    code: u32,
    entries: u32,
    out: &[u32],
    work: &[u32],
) -> io::Result<()> {
    test_support::print_call(rt, label, code, entries, work)?;
    let n = out.len();
    if n <= 40 {
        test_support::show(rt, b"out", out)
    } else {
        test_support::print_word(rt, b"last word", test_support::word(out, n - 1))
    }
}

// Key 0 is in hand and opens door 1; behind that is key 1, which opens the doors 0 and 1. No key opens door 2. Some
// entries are 0.
fn house(rt: &impl Print, work: &mut Workspace) -> io::Result<()> {
    let mut locks = [0u32; 17];
    test_support::store(&mut locks, 2, 3, &[0, 1, 3], &[1, 0, 1], &[0, 5, 0]);
    let locks: &[u32] = &locks;
    let mut cabinets = [0u32; 14];
    test_support::store(&mut cabinets, 3, 2, &[0, 0, 1, 1], &[1], &[0]);
    let cabinets: &[u32] = &cabinets;
    let mut hand = [0u32; 12];
    test_support::store(&mut hand, 1, 2, &[0, 1], &[0], &[0]);
    let hand: &[u32] = &hand;
    house_within(rt, b"no round more", 0, locks, cabinets, hand, work)?;
    house_within(rt, b"one round", 1, locks, cabinets, hand, work)?;
    house_within(rt, b"as many as keys", 2, locks, cabinets, hand, work)?;
    house_within(rt, b"1,000 rounds", 1000, locks, cabinets, hand, work)
}

fn house_within(
    rt: &impl Print,
    label: &[u8],
    allowance: u32,
    locks: &[u32],
    cabinets: &[u32],
    hand: &[u32],
    work: &mut Workspace,
) -> io::Result<()> {
    let mut out = [0u32; 16];
    both(rt, label, allowance, locks, cabinets, hand, &mut out, work)
}

// Each call has one thing more right than the one before.
fn refusals_in_order(rt: &impl Print, work: &mut Workspace) -> io::Result<()> {
    let none: &[u32] = &[];
    let mut words = [0u32; 10];
    let _ = create::new_empty(&mut words, 1, 1);
    let sound: &[u32] = &words;
    let mut rows = [0u32; 11];
    let _ = create::new_empty(&mut rows, 2, 1);
    let tall: &[u32] = &rows;
    let mut out = [0u32; 10];
    refused(rt, b"locks", 1001, none, none, none)?;
    refused(rt, b"cabinets", 1001, sound, none, none)?;
    refused(rt, b"hand", 1001, sound, sound, none)?;
    refused(rt, b"allowance", 1001, sound, sound, tall)?;
    refused(rt, b"shapes", 1000, sound, sound, tall)?;
    refused(rt, b"workspace", 1000, sound, sound, sound)?;
    no_room(rt, b"room", sound, work)?;
    both(
        rt,
        b"nothing wrong",
        1000,
        sound,
        sound,
        sound,
        &mut out,
        work,
    )
}

// In 9 words, and with a workspace that is too short.
fn refused(
    rt: &impl Print,
    label: &[u8],
    allowance: u32,
    locks: &[u32],
    cabinets: &[u32],
    hand: &[u32],
) -> io::Result<()> {
    let mut short = [0u32; 9];
    let mut few = [0u32; 20];
    both(
        rt, label, allowance, locks, cabinets, hand, &mut short, &mut few,
    )
}

fn no_room(rt: &impl Print, label: &[u8], sound: &[u32], work: &mut Workspace) -> io::Result<()> {
    let mut short = [0u32; 9];
    both(rt, label, 1000, sound, sound, sound, &mut short, work)
}

// Key k opens door k, and key k + 1 is behind it; key 0 is in hand. A round for each door.
fn corridor(rt: &impl Print, work: &mut Workspace) -> io::Result<()> {
    let mut locks = [0u32; 3009];
    corridor_locks(&mut locks);
    let locks: &[u32] = &locks;
    let mut cabinets = [0u32; 3007];
    corridor_cabinets(&mut cabinets);
    let cabinets: &[u32] = &cabinets;
    let mut hand = [0u32; 12];
    test_support::store(&mut hand, 1, 1000, &[0, 1], &[0], &[0]);
    let hand: &[u32] = &hand;
    corridor_within(
        rt,
        b"corridor, 998 rounds",
        998,
        locks,
        cabinets,
        hand,
        work,
    )?;
    corridor_within(
        rt,
        b"corridor, 999 rounds",
        999,
        locks,
        cabinets,
        hand,
        work,
    )?;
    corridor_within(
        rt,
        b"corridor, 1,000 rounds",
        1000,
        locks,
        cabinets,
        hand,
        work,
    )
}

fn corridor_within(
    rt: &impl Print,
    label: &[u8],
    allowance: u32,
    locks: &[u32],
    cabinets: &[u32],
    hand: &[u32],
    work: &mut Workspace,
) -> io::Result<()> {
    let mut out = [0u32; 2010];
    both(rt, label, allowance, locks, cabinets, hand, &mut out, work)
}

fn corridor_locks(words: &mut [u32]) {
    corridor_shape(words);
    test_support::put_run(words, 6, 1001, 1, 4294967295);
    test_support::put(words, 1007, 1000);
    test_support::put_run(words, 1008, 1000, 1, 4294967295);
    test_support::put(words, 2008, 1000);
}

fn corridor_cabinets(words: &mut [u32]) {
    corridor_shape(words);
    test_support::put_run(words, 6, 1000, 1, 4294967295);
    test_support::put(words, 1006, 999);
    test_support::put_run(words, 1007, 1000, 1, 4294967295);
    test_support::put(words, 1007, 999);
    test_support::put(words, 2007, 999);
}

fn corridor_shape(words: &mut [u32]) {
    test_support::put(words, 0, 1);
    test_support::put(words, 2, 2);
    test_support::put(words, 3, 1000);
    test_support::put(words, 4, 1000);
    test_support::put(words, 5, 1001);
}
