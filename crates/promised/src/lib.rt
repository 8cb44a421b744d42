// The promise for a batch that is run from C: sealed, it gives what the transactions give one by one; and the program's
// output, as `desk` defines it, tells what such a run hands out. Pure mathematics, no code. It stands in specs/.
#![tactic(auto)]
