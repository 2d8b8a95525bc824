// The border of an anchor and edges: the reply, and which outlines have this anchor and these edges (contract 6.3).
#![tactic(auto)]

pub mod written;
