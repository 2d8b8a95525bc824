// The convexity theorem, theory only: the edges decide which cells are in the block,
// and an outline is dented exactly if a cell is missing.
#![tactic(auto)]
