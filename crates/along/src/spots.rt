// Where each node stands on the route.
ghost use Rattle.std.specs.Prelude.{ℕ, ◌<◌, ◌≤◌, ◌≡◌, get_or, length, replicate, take};
ghost use Rattle.laws.specs.Basic.{mem};
ghost use Rattle.bits.specs.Places.{has};
ghost use Rattle.along.specs.Spots.{Spots};

use rules::Node;

// The stop of each node into an array that has `Node::MOST`, which stands for no stop, at every node.
pub fn spots(route: &[usize; Node::MOST], stops: usize, at: &mut [usize; Node::MOST])
    requires route_len { (length route.now ≡ 64) × (stops ≤ 64) × ((i : ℕ) → i < stops → get_or route.now i 0 < 64) }
    requires at_value { at.old ≡ replicate 64 64 }
    ensures { Spots route.now stops at.new }
{
    for i in 0..stops {
        at[route[i]] = i;
    }
}

// The nodes of the route as a set.
pub fn word(route: &[usize; Node::MOST], stops: usize) -> u64
    requires { (length route.now ≡ 64) × (stops ≤ 64) × ((i : ℕ) → i < stops → get_or route.now i 0 < 64) }
    ensures { (x : ℕ) → has result x ≡ mem x (take stops route.now) }
{
    let mut w: u64 = 0;
    for x in &route[..stops] {
        w = bits::put(w, *x);
    }
    w
}
