// The sections of a pile's layers, their marked cells, and what a check means: definitions and proofs only.
#![tactic(auto)]
