// The machine: one step of a thread over the lent tables, and the start of an operation.
#![tactic(auto)]

mod guards;
mod look;
pub mod start;
pub mod step;
