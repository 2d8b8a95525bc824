// General laws, theory only: numbers below a bound, sizes of integers, lists.
#![tactic(auto)]
