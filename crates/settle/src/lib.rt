// Settling: the load tests, a round of settling, and rounds until one strikes nothing.
#![tactic(auto)]

pub mod settling;
pub mod strike;
