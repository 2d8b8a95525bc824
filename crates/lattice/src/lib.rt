// Walks along the corners of the chart and the cells that a closed walk encloses, theory only.
#![tactic(auto)]
