// No code: that a node under a validated protection is never on a reclaim list is in the antt files of specs/.
#![tactic(auto)]
