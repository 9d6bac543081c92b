// No code: the tables seen by name, and the laws by which a step over the tables is a step over the view, are the antt files of specs/.
#![tactic(auto)]
