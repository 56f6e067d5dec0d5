// Merging matrices by MAX gives one result in whatever order they come: one theorem, in proofs/. There is no code here.

#![tactic(auto)]
