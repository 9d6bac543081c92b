// No code: who holds each record, and that every step and start keeps it so, are the antt files of specs/.
#![tactic(auto)]
