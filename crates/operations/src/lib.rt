// The operations that give a matrix, as values: what each has and asks for, what T is, and how it is written back. Their
// meaning on plain grids is in specs/.

#![tactic(auto)]

ghost use Rattle.std.specs.Prelude.{◌≡◌};
ghost use Rattle.limits.specs.Limits.{max_cols};
ghost use Rattle.operations.specs.GridOperations.{inputs_of, rules, rules_of, part_shape, needs_of};
ghost use Rattle.operations.specs.Lists.{Small};

use operators::{ApplyOp, BinaryOp, Monoid};
use select_ops::SelectOp;

// Document 01's operations that give a T, and document 02's. A vector times a matrix is the product with a first input of one
// row. Assign has the accumulator that it is written back with: T's places that are not listed depend on whether there is
// one.
#[derive(Clone, Copy, Debug, PartialEq, Eq)]
pub enum Operation {
    Mxm(Monoid, BinaryOp),
    EwiseMult(BinaryOp),
    EwiseAdd(BinaryOp),
    Apply(ApplyOp),
    Extract,
    Select(SelectOp),
    ReduceRows(Monoid),
    Assign(Accumulator),
    Kronecker(BinaryOp),
}

// "Whether there is a mask or an accumulator is said apart from its words or number."
pub type Accumulator = Option<BinaryOp>;

// How T is written back into C: the flags that act there, whether there is a mask, and the accumulator.
#[derive(Clone, Copy, Debug, PartialEq, Eq)]
pub struct WriteBack {
    pub replace: bool,
    pub complement: bool,
    pub structural: bool,
    pub has_mask: bool,
    pub accumulator: Accumulator,
}

// A call of one of these operations, its numbers decoded: the flags, whether every operator, monoid and accumulator
// number is one, what is computed, whether the first input has to be a vector (it is then never transposed), whether
// there is a mask, and the accumulator.
#[derive(Clone, Copy, Debug, PartialEq, Eq)]
pub struct Call {
    pub flags: u32,
    pub known: bool,
    pub operation: Operation,
    pub vector_first: bool,
    pub has_mask: bool,
    pub accumulator: Accumulator,
}

// The rows and columns of a matrix.
#[derive(Clone, Copy, Debug, PartialEq, Eq)]
pub struct Shape {
    pub rows: usize,
    pub cols: usize,
}

// Which inputs an operation has beside the first: a second one, index lists.
#[derive(Clone, Copy, Debug, PartialEq, Eq)]
pub struct Inputs {
    pub second: bool,
    pub lists: bool,
}

// The shapes of a call: of the inputs as their flags ask, of the old C, and the lengths of the two index lists.
#[derive(Clone, Copy, Debug, PartialEq, Eq)]
pub struct Shapes {
    pub first: Shape,
    pub second: Shape,
    pub output: Shape,
    pub lists: Shape,
}

// What an operation asks of them: the shapes that its inputs have to have, the bounds of the indexes, and T's shape.
#[derive(Clone, Copy, Debug, PartialEq, Eq)]
pub struct Needs {
    pub first: Shape,
    pub second: Shape,
    pub bounds: Shape,
    pub result: Shape,
}

// Which inputs an operation has.
pub fn inputs_of(operation: Operation) -> Inputs
    ensures { result ≡ inputs_of operation }
{
    let (second, lists) = match operation {
        Operation::Mxm(_, _) => (true, false),
        Operation::EwiseMult(_) => (true, false),
        Operation::EwiseAdd(_) => (true, false),
        Operation::Apply(_) => (false, false),
        Operation::Extract => (false, true),
        Operation::Select(_) => (false, false),
        Operation::ReduceRows(_) => (false, false),
        Operation::Assign(_) => (false, true),
        Operation::Kronecker(_) => (true, false),
    };
    Inputs { second, lists }
}

// A shape that an operation asks for or gives, by what it is made of: the first input, the second, A's columns by B's
// columns, A's rows by B's columns, the lengths of the lists, the old C, a vector with a place for each of A's rows, a
// block of B's shape for each place of A.
#[derive(Clone, Copy, Debug, PartialEq, Eq)]
pub enum Part {
    First,
    Second,
    Inner,
    Outer,
    Lists,
    Output,
    OfRows,
    Blocks,
}

// What an operation asks for: the shapes of its inputs, the bounds of the indexes, and T's shape.
#[derive(Clone, Copy, Debug, PartialEq, Eq)]
pub struct Rules {
    pub first: Part,
    pub second: Part,
    pub bounds: Part,
    pub result: Part,
}

// What an operation asks for. An input that may have any shape is asked for its own.
fn rules_of(operation: Operation) -> Rules
    ensures { result ≡ rules_of operation }
{
    let first = Part::First;
    let second = Part::Second;
    let output = Part::Output;
    match operation {
        Operation::Mxm(_, _) => rules_with(first, Part::Inner, first, Part::Outer),
        Operation::EwiseMult(_) => rules_with(first, first, first, first),
        Operation::EwiseAdd(_) => rules_with(first, first, first, first),
        Operation::Apply(_) => rules_with(first, second, first, first),
        Operation::Extract => rules_with(first, second, first, Part::Lists),
        Operation::Select(_) => rules_with(first, second, first, first),
        Operation::ReduceRows(_) => rules_with(first, second, first, Part::OfRows),
        Operation::Assign(_) => rules_with(Part::Lists, second, output, output),
        Operation::Kronecker(_) => rules_with(first, second, first, Part::Blocks),
    }
}

fn rules_with(first: Part, second: Part, bounds: Part, result_part: Part) -> Rules
    ensures { result ≡ rules first second bounds result_part }
{
    Rules {
        first,
        second,
        bounds,
        result: result_part,
    }
}

// The shape that a part names.
fn part_shape(part: Part, shapes: Shapes) -> Shape
    requires first_small { Small max_cols shapes.first }
    requires second_small { Small max_cols shapes.second }
    ensures { result ≡ part_shape part shapes }
{
    let Shapes {
        first,
        second,
        output,
        lists,
    } = shapes;
    match part {
        Part::First => first,
        Part::Second => second,
        Part::Inner => Shape {
            rows: first.cols,
            cols: second.cols,
        },
        Part::Outer => Shape {
            rows: first.rows,
            cols: second.cols,
        },
        Part::Lists => lists,
        Part::Output => output,
        Part::OfRows => Shape {
            rows: 1,
            cols: first.rows,
        },
        Part::Blocks => Shape {
            rows: first.rows * second.rows,
            cols: first.cols * second.cols,
        },
    }
}

// What an operation asks of the shapes of its call.
pub fn needs_of(operation: Operation, shapes: Shapes) -> Needs
    requires first_small { Small max_cols shapes.first }
    requires second_small { Small max_cols shapes.second }
    ensures { result ≡ needs_of operation shapes }
{
    let rules = rules_of(operation);
    Needs {
        first: part_shape(rules.first, shapes),
        second: part_shape(rules.second, shapes),
        bounds: part_shape(rules.bounds, shapes),
        result: part_shape(rules.result, shapes),
    }
}
