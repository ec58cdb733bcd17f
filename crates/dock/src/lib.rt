// The listing of a sheet, made in a buffer: its steps run one by one from the fresh fleet, the line of each, and the routes at the end.
#![tactic(auto)]

pub mod lines;

use fleet::Fleet;
use rules::{Node, Step};

// Words of the trail that is lent: for each van room for every record of the fullest sheet, the first van's marks included.
pub const TRAIL: usize = 2 * Fleet::VANS * (Node::MOST + 1) * (Node::MOST - 2);

// Bytes of the longest listing: a line has at most 200, a route's at most 1,350.
pub const TEXT: usize = 200 * Step::MOST + 1350 * Fleet::VANS;
