// A route is the first `stops` entries of an array of nodes.
ghost use Rattle.std.specs.Prelude.{◌≡◌, ℕ, ◌≤◌, ◌<◌, get_or, length, take};
ghost use Rattle.board.specs.Route.{index_of, insert_in, word_of};

use rules::Node;

// The last entry of the array.
const LAST: usize = Node::MOST - 1;

// Where p stands on the route; the number of stops where it does not.
pub fn position(route: &[usize; Node::MOST], stops: usize, p: usize) -> usize
    requires { (stops ≤ 64) × (length route.now ≡ 64) }
    ensures { result ≡ index_of p (take stops route.now) }
{
    route[..stops].iter().position(|x| *x == p).unwrap_or(stops)
}

// The first k stops as a set.
pub fn word(route: &[usize; Node::MOST], k: usize) -> u64
    requires { (k ≤ 64) × ((i : ℕ) → i < k → get_or route.now i 0 < 64) }
    ensures { result ≡ word_of k route.now }
{
    let mut w: u64 = 0;
    for p in &route[..k] {
        w = bits::put(w, *p);
    }
    w
}

// x put in at a place; the entries from there on move up by one.
pub fn insert(route: &mut [usize; Node::MOST], at: usize, x: usize)
    requires { (at < 64) × (length route.old ≡ 64) }
    ensures { route.new ≡ insert_in 63 at x route.old }
{
    route.copy_within(at..LAST, at + 1);
    route[at] = x;
}
