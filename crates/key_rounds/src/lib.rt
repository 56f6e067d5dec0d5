// Keys behind doors, on plain grids: the rounds are in specs/, the laws in proofs/; there is no code.

#![tactic(auto)]
