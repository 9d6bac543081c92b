// No code: that nobody else is inside an operation from shutdown's start on is in the antt files of specs/.
#![tactic(auto)]
