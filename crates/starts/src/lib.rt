// What a start refuses, and what it writes, by value or over the tables that it reads.
#![tactic(auto)]

pub mod begin;
pub mod refuse;
