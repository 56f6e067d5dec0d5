// A day matrix over a base matrix (document 02, A7) on plain grids: definitions in specs/, and their laws in proofs/.

#![tactic(auto)]
