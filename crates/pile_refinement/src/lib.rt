// The theorems about lists of calls on a pile, as C makes them, and about each moment of a call. No code.
#![tactic(auto)]
