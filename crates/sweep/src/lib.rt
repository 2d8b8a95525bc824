// The rows of a polygon by one pass along its edges, theory only: the columns of each row, and two polygons compared by them.
#![tactic(auto)]
