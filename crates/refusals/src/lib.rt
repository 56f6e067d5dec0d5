// The refusals of a call on plain grids, in their order. Definitions are in specs/, their laws in proofs/; there is no
// code: `requests` has the tests on words.

#![tactic(auto)]
