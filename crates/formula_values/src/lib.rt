// What a formula is worth on plain grids: definitions in specs/, laws in proofs/; there is no code.

#![tactic(auto)]
