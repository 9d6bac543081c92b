// No code: that every waiting node stands in exactly one list, and that every step keeps it so, are the antt files of specs/.
#![tactic(auto)]
