// The one writing of a grid in words. Definitions are in specs/, the theorems in proofs/; there is no code.

#![tactic(auto)]
