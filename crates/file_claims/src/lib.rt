// Files carry matrices: reading what was written gives the words back, each accepted file of today's form is what the
// writer gives, and a grid with its revision has one file. One theorem, in proofs/. There is no code here.

#![tactic(auto)]
