// Mathematics only: sums, counts, sorting and searches over the numbers below n. No code.
#![tactic(auto)]
