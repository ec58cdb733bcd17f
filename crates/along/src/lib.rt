// Along a route that is kept in an array: the start and the last start at each stop, the load on each leg, where each node stands, and the jobs by
// node. What settling and the verdict ask of a state in arrays is said here, too.
#![tactic(auto)]

pub mod loads;
pub mod nodes;
pub mod spots;
pub mod times;
