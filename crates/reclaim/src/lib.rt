// The places of Reclaim and of shutdown, by value.
#![tactic(auto)]

pub mod reclaim;
pub mod shutdown;
