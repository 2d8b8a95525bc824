// Rounding of floats, theory only: how far the result of an operation lies from the
// exact one, in units of the format's smallest positive value.
#![tactic(auto)]
