// Wrong answers that the contracts exclude: one table for each crate that has functions, whose rows are a named input
// and an answer that a wrong program gives there. Pure mathematics, no code. It stands in specs/.
#![tactic(auto)]
