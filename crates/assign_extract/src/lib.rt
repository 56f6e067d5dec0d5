// An extract of the listed places right after an assign gives A's earlier grid back: one theorem, in proofs/. There is no
// code here.

#![tactic(auto)]
