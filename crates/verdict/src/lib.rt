// The verdict on an outline, theory only. It agrees with the published rule of factors and with the hull.
#![tactic(auto)]
