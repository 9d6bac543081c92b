// What every crate above cites: choice by a test, and the laws by which code that branches meets a definition that picks.
// The antt files of specs/ are what this crate holds.
#![tactic(auto)]
