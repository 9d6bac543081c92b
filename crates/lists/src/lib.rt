// No code: the laws of lists that are followed through a table, for the proof that every run is safe, are the antt files of specs/.
#![tactic(auto)]
