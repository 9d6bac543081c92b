// Words for a listing: the names of operations, places and cells, and what an operation names.
#![tactic(auto)]

pub mod names;
pub mod told;
