// What C calls, in any mixture on one memory, gets the plain book's replies. Definitions and theorems, no code.
#![tactic(auto)]
