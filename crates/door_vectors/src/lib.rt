// The vector of the doors that open within an allowance of rounds, each with its first round: its words are left at the
// front of the workspace.

#![tactic(auto)]

ghost use Rattle.std.specs.Prelude.{◌+◌, ◌≤◌, ◌≡◌, length};
ghost use Rattle.limits.specs.Limits.{max_cols, max_allowance};
ghost use Rattle.rows.specs.Row.{Holds};
ghost use Rattle.matrix.specs.Layout.{rows, cols, grid_of, max_matrix_words};
ghost use Rattle.key_rounds.specs.Rounds.{in_hand};
ghost use Rattle.key_marks.specs.Marks.{Asked, Rounds};
ghost use Rattle.key_requests.specs.Ready.{Ready};
ghost use Rattle.key_requests.specs.Refusal.{lent_doors};
ghost use Rattle.door_vectors.specs.Vectors.{round_at, vector_of, Room, Written};

use limits::ROW_PLACES;

// The two programs that find the doors' first rounds: the product is repeated, or two questions ask each other. They
// give the same rounds.
#[derive(Clone, Copy, Debug, PartialEq, Eq)]
pub enum Program {
    Rounds,
    Questions,
}

// The vector for matrices that fit, by either program, with the marks of keys and doors on the stack; its number of
// entries.
pub fn door_vector(
    program: Program,
    allowance: u32,
    locks: &[u32],
    cabinets: &[u32],
    hand: &[u32],
    work: &mut [u32],
) -> usize
    requires ready { Ready allowance locks.now cabinets.now hand.now }
    requires workspace { max_matrix_words ≤ length work.old }
    ensures { Written (lent_doors allowance locks.now cabinets.now hand.now) result
        work.new }
{
    let mut keys = [0u32; ROW_PLACES];
    let mut doors = [0u32; ROW_PLACES];
    let key_count = matrix::row_count(locks) as usize;
    let door_count = matrix::col_count(locks) as usize;
    vector_from(
        program,
        allowance,
        locks,
        cabinets,
        hand,
        &mut keys[..key_count],
        &mut doors[..door_count],
        work,
    )
}

// The same, with a word for each key and each door.
fn vector_from(
    program: Program,
    allowance: u32,
    locks: &[u32],
    cabinets: &[u32],
    hand: &[u32],
    keys: &mut [u32],
    doors: &mut [u32],
    work: &mut [u32],
) -> usize
    requires ready { Ready allowance locks.now cabinets.now hand.now }
    requires workspace { max_matrix_words ≤ length work.old }
    requires keys_size { length keys.old ≡ rows locks.now }
    requires doors_size { length doors.old ≡ cols locks.now }
    ensures { Written (lent_doors allowance locks.now cabinets.now hand.now) result
        work.new }
{
    first_rounds(program, allowance, locks, cabinets, hand, keys, doors);
    write_opened(&doors[..], work)
}

// The doors' first rounds, by either program.
fn first_rounds(
    program: Program,
    allowance: u32,
    locks: &[u32],
    cabinets: &[u32],
    hand: &[u32],
    keys: &mut [u32],
    doors: &mut [u32],
)
    requires asked { Asked locks.now cabinets.now hand.now keys.old doors.old }
    requires allowed { allowance ≤ max_allowance }
    ensures { Rounds (grid_of locks.now) (grid_of cabinets.now)
        (in_hand (grid_of hand.now)) allowance (allowance + 1) keys.new doors.new }
{
    match program {
        Program::Rounds => key_marks::doors_within(allowance, locks, cabinets, hand, keys, doors),
        Program::Questions => key_marks::doors_asked(allowance, locks, cabinets, hand, keys, doors),
    }
}

// The vector of the doors that opened, with the buffers of a row on the stack.
fn write_opened(doors: &[u32], out: &mut [u32]) -> usize
    requires few { length doors.now ≤ max_cols }
    requires space { max_matrix_words ≤ length out.old }
    ensures { Written (vector_of doors.now) result out.new }
{
    let mut oc = [0u32; ROW_PLACES];
    let mut ov = [0u32; ROW_PLACES];
    write_vector(doors, &mut oc, &mut ov, out)
}

// The vector of the doors that opened, written at the front of `out`; its number of entries.
fn write_vector(doors: &[u32], oc: &mut [u32], ov: &mut [u32], out: &mut [u32]) -> usize
    requires room { Room doors.now oc.old ov.old }
    requires space { max_matrix_words ≤ length out.old }
    ensures { Written (vector_of doors.now) result out.new }
{
    let n = gather_doors(doors, oc, ov);
    results::stage_row(out, 1, 0, 0, &oc[..n], &ov[..n]);
    results::finish(out, 1, doors.len(), n);
    n
}

// The doors that opened, in order, to the front of `oc`, and the first round of each to that of `ov`; how many they
// are.
fn gather_doors(doors: &[u32], oc: &mut [u32], ov: &mut [u32]) -> usize
    requires { Room doors.now oc.old ov.old }
    ensures { Holds (length doors.now) (round_at doors.now) result oc.new
        ov.new }
{
    let mut e: usize = 0;
    for (d, &door) in doors.iter().enumerate() {
        if door != 0 {
            oc[e] = d as u32;
            ov[e] = door - 1;
            e += 1;
        }
    }
    e
}
