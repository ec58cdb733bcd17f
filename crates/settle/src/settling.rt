// Settling: rounds until one strikes nothing. The rules have that two are enough, so the code makes two and counts those that struck.
ghost use Rattle.std.specs.Prelude.{◌≡◌, ℕ, ◌<◌, ◌≤◌, get_or, length, take, eqb};
ghost use Rattle.laws.specs.Basic.{all_below};
ghost use Rattle.day.specs.Tell.{job_in, day_of};
ghost use Rattle.along.specs.Ready.{Ready};
ghost use Rattle.along.specs.Nodes.{ByNode};
ghost use Rattle.settle.specs.Round.{same_sets};
ghost use Rattle.settle.specs.Settles.{Read, Settles};

use crate::strike::{Pass, round, strike_pairs};
use along::loads::loads;
use along::nodes::Jobs;
use along::spots::spots;
use along::times::lasts;
use rules::{Node, Van};
use sheet::Layout;
use walks::befores;

// Whether two arrays of sets are the same, where they are so from the n-th on.
fn same(a: &[u64; Node::MOST], b: &[u64; Node::MOST], n: usize) -> bool
    requires { (length a.now ≡ 64) × (length b.now ≡ 64) × (n ≤ 64) × ((i : ℕ) → n ≤ i → get_or a.now i 0 ≡ get_or b.now i 0) }
    ensures { result ≡ same_sets a.now b.now }
{
    let mut is = true;
    for i in 0..n {
        is &= a[i] == b[i];
    }
    is
}

// Whether none of the first n nodes has a place: the words or-ed up are 0, which looks at each of them without a branch. Where none has, no round
// can strike, and a caller who asks first need not settle.
pub fn none_open(sets: &[u64; Node::MOST], n: usize) -> bool
    requires { (length sets.now ≡ 64) × (n ≤ 64) }
    ensures { result ≡ all_below n (λ i. eqb (get_or sets.now i 0) 0) }
{
    let mut all: u64 = 0;
    for i in 0..n {
        all |= sets[i];
    }
    all == 0
}

// The rounds, with L, H, the spots and the nodes before each stop at hand: the first, and the further one where it struck something, which asks the
// transfers only: window, metres, clean and soiled jobs and the profile read the route, so what they leave they leave again. Counts those that
// struck.
fn rounds(
    s: &[u8],
    at: Layout,
    t: &[u32; Jobs::ROOM],
    pass: Pass,
    old: &[u64; Node::MOST],
    new: &mut [u64; Node::MOST],
    route: &[usize; Node::MOST],
    spots: &[usize; Node::MOST],
    before: &[u64; Node::MOST],
    l: &[i64; Node::MOST],
    h: &[usize; Node::MOST],
) -> usize
    requires ready { Ready s.now at route.now pass.stops old.now 0 × Read s.now at route.now pass l.now h.now spots.now before.now }
    requires value { (new.old ≡ old.now) × ByNode (job_in s.now) at.jobs t.now }
    ensures { Settles pass.van (day_of s.now) (take pass.stops route.now) old.now result new.new }
{
    round(s, at, t, pass, new, route, spots, before, l, h);
    if same(old, new, at.nodes) {
        return 0;
    }
    if strike_pairs(s, at, t, pass, new, route, spots, before, h) {
        2
    } else {
        1
    }
}

// Settles the sets of a state in form, of which `new` is a copy at first: the number of rounds that struck something.
pub fn settle(
    s: &[u8],
    at: Layout,
    t: &[u32; Jobs::ROOM],
    van: Van,
    route: &[usize; Node::MOST],
    stops: usize,
    old: &[u64; Node::MOST],
    new: &mut [u64; Node::MOST],
) -> usize
    requires ready { Ready s.now at route.now stops old.now 0 × (new.old ≡ old.now) × (van.limit < 1099511627776) }
    requires by_node { ByNode (job_in s.now) at.jobs t.now }
    ensures { Settles van (day_of s.now) (take stops route.now) old.now result new.new }
{
    let mut l = [0i64; Node::MOST];
    let mut spot = [Node::MOST; Node::MOST];
    let mut before = [0u64; Node::MOST];
    let mut h = [0usize; Node::MOST];
    lasts(s, at, route, stops, &mut l);
    spots(route, stops, &mut spot);
    befores(route, stops - 1, &mut before);
    let peaks = loads(s, at, t, route, stops, &spot, &mut h);
    let pass = Pass { van, stops, peaks };
    rounds(s, at, t, pass, old, new, route, &spot, &before, &l, &h)
}
