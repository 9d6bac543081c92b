// No code: the runs of a domain, what they leave behind, and the theorems of demand 3 are the antt files of specs/.
#![tactic(auto)]
