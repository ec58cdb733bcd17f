// What placing a node does to route and sets. Stops, marks of either sort and records are the caller's.
ghost use Rattle.std.specs.Prelude.{◌≡◌, ℕ, ◌+◌};
ghost use Rattle.board.specs.Board.{board};
ghost use Rattle.board.specs.Held.{Sound, Splits};
ghost use Rattle.board.specs.Change.{placed_after};

use crate::places::inherit;
use crate::route::{insert, position};
use rules::Node;

// x placed after p, in a leg that it can split.
pub fn place(
    route: &mut [usize; Node::MOST],
    sets: &mut [u64; Node::MOST],
    stops: usize,
    n: usize,
    p: usize,
    x: usize,
)
    requires { (marks must : ℕ) × Sound n (board route.old stops sets.old marks must) × Splits n (board route.old stops sets.old marks must) p x }
    ensures { (marks must : ℕ) → placed_after (board route.old stops sets.old marks must) p x
        ≡ board route.new (stops + 1) sets.new marks must }
{
    let at = position(route, stops, p);
    insert(route, at + 1, x);
    inherit(sets, n, p, x);
    sets[x] = 0;
}
