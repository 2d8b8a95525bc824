// Edges whose directions increase clockwise, theory only: the order of directions, refusal
// 16, and the hull of the corner cells, which these edges bound.
#![tactic(auto)]
