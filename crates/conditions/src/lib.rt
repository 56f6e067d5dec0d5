// Conditions as Boolean values that compute. Definitions are in specs/, their laws in proofs/; there is no code.

#![tactic(auto)]
