// Every list of calls on a store goes as the model goes: of the functions, and of the exported ones that hosts call. The
// theorems are in proofs/; there is no code here.

#![tactic(auto)]
