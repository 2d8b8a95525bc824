// The model of a pile, and the theorem that a pile replies as the model does. No code.
#![tactic(auto)]
