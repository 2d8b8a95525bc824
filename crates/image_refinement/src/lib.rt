// What a check notices, and what a restore brings back, for every content of a holder's arrays. Definitions and theorems, no code.
#![tactic(auto)]
