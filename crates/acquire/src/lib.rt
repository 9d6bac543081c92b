// The places of acquire and of release, by value.
#![tactic(auto)]

pub mod acquire;
pub mod release;
