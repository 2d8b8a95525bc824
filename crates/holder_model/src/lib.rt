// The model of the holder. Definitions and theorems, no code.
#![tactic(auto)]
