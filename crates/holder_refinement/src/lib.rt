// The holder in four arrays replies as the plain book does, at any instant. Theorems, no code.
#![tactic(auto)]
