// The model of a store: slots with plain grids, and what each call does to them. It is definitions, in specs/; the code
// has only what the calls share with them.

#![tactic(auto)]

// The slots that an operation names for its inputs, its mask and C.
#[derive(Clone, Copy, Debug, PartialEq, Eq)]
pub struct Roles {
    pub first: usize,
    pub second: usize,
    pub mask: usize,
    pub output: usize,
}
