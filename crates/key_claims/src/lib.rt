// Claims of "keys behind doors" (document 02, A13): the two programs are equal, and an allowance beyond the number of
// keys adds nothing. The claims are in specs/, their proofs in proofs/; there is no code.

#![tactic(auto)]
