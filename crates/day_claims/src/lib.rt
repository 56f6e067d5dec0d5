// Claims of a day matrix over a base matrix (document 02, A7), from the contracts of its calls. The claims are in specs/,
// their proofs in proofs/; there is no code.

#![tactic(auto)]
