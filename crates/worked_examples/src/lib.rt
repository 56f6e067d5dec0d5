// The worked sheets P1 to P12. The table is in specs/, the theorem in proofs/; there is no code.

#![tactic(auto)]
