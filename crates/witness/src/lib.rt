// The lowest missing cell of an outline, and three enclosed cells whose triangle has it: the reply (contract 6.5) and theory.
#![tactic(auto)]

pub mod written;
