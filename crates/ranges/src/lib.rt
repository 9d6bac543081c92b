// No code: that every cell and every row of a run is in its range, so that no step meets 29, is in the antt files of specs/.
#![tactic(auto)]
