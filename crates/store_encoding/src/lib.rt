// The one writing of a model in a store's words, and the model that words hold. Definitions are in specs/, the theorems
// in proofs/; there is no code.

#![tactic(auto)]
