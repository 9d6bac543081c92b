// No code: that `count` and what the threads owe add up to the waiting nodes is in the antt files of specs/.
#![tactic(auto)]
