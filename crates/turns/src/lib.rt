// The turns of the vans in a step in which all take part.
#![tactic(auto)]

pub mod each;
