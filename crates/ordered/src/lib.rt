// What the order theorem says of the stores of this project: pure mathematics, no code. Its definitions and the
// refinement stand in specs/, in the order of specs/Lib.antt; the theorem stands in proofs/.
#![tactic(auto)]
