// No code: parts of a list, and lists written piece by piece.
#![tactic(auto)]
