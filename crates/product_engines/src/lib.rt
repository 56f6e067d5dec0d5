// The two engines of the product give the same rows, and calls with either of them the same answers and the same words:
// theorems, in specs/ and proofs/. There is no code here.

#![tactic(auto)]
