// Comparison of two polygons, theory only: equal, one within the other, no common cell, or crossing.
#![tactic(auto)]
