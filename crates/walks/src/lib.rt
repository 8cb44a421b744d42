// Generic steps of proofs that walk a function's code by hand, for functions over lent slices of structs: what it is to
// lend such a slice for a call and to get it back, and a call as one step. There is no code here; see proofs/.
#![tactic(auto)]
