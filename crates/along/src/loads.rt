// H: the load aboard on each leg, by what comes aboard and what goes off at each stop.
ghost use Rattle.std.specs.Prelude.{◌≡◌, cond, [], ℕ, ◌+◌, ◌-◌, ◌<◌, ◌≤◌, take, get_or, length};
ghost use Rattle.laws.specs.Basic.{Filled};
ghost use Rattle.rules.specs.Load.{load};
ghost use Rattle.rules.specs.Along.{load_at};
ghost use Rattle.day.specs.Tell.{job_in, day_of};
ghost use Rattle.along.specs.Spots.{Spots};
ghost use Rattle.along.specs.Nodes.{Routed};
ghost use Rattle.along.specs.Loads.{Peaked};

use crate::nodes::Jobs;
use rules::Node;
use sheet::Layout;

// The most that is aboard on any leg, and the most that any job loads.
#[derive(Clone, Copy)]
pub struct Peaks {
    pub highest: usize,
    pub heaviest: usize,
}

// What comes aboard at x: its soiled load, and that of the transfer that begins there, if it ends at a later stop.
pub fn comes(t: &[u32; Jobs::ROOM], x: usize, ends: bool) -> usize
    requires { (length t.now ≡ 321) × (x < 64) × ((i : ℕ) → get_or t.now i 0 < 4398046511104) }
    ensures { result ≡ get_or t.now (64 + x) 0 + cond ends (get_or t.now (128 + x) 0) 0 }
{
    let soiled = t[Jobs::SOILED + x] as usize;
    if ends {
        soiled + t[Jobs::FIRST + x] as usize
    } else {
        soiled
    }
}

// What goes off at x: its clean load, and that of the transfer that ends there, if it has begun.
pub fn goes(t: &[u32; Jobs::ROOM], x: usize, begun: bool) -> usize
    requires { (length t.now ≡ 321) × (x < 64) × ((i : ℕ) → get_or t.now i 0 < 4398046511104) }
    ensures { result ≡ get_or t.now x 0 + cond begun (get_or t.now (192 + x) 0) 0 }
{
    let clean = t[x] as usize;
    if begun {
        clean + t[Jobs::SECOND + x] as usize
    } else {
        clean
    }
}

// What is aboard before the first stop: the clean load of every stop.
pub fn at_start(
    s: &[u8],
    at: Layout,
    t: &[u32; Jobs::ROOM],
    route: &[usize; Node::MOST],
    stops: usize,
) -> usize
    requires { Routed s.now at route.now stops t.now }
    ensures { (result ≡ load (day_of s.now) [] (take stops route.now)) × (result ≤ 281474976710656) }
{
    let mut sum = 0;
    for x in &route[..stops] {
        sum += t[*x] as usize;
    }
    sum
}

// H: the load aboard on each leg of the route, where `t` has the jobs by node and `spots` each node's stop, into an array; and the peaks.
pub fn loads(
    s: &[u8],
    at: Layout,
    t: &[u32; Jobs::ROOM],
    route: &[usize; Node::MOST],
    stops: usize,
    spots: &[usize; Node::MOST],
    h: &mut [usize; Node::MOST],
) -> Peaks
    requires { Routed s.now at route.now stops t.now × Spots route.now stops spots.now × (length h.old ≡ 64) }
    ensures { Filled 64 (load_at (day_of s.now) (take stops route.now)) 0 (stops - 1) h.new
        × Peaked (day_of s.now) (take stops route.now) (stops - 1) (job_in s.now) at.jobs result }
{
    let mut aboard = at_start(s, at, t, route, stops);
    let mut highest: usize = 0;
    for i in 0..stops - 1 {
        let x = route[i];
        let other = t[Jobs::PARTNER + x] as usize;
        let k = spots[other];
        let up = comes(t, x, (i < k) & (k < Node::MOST));
        let down = goes(t, x, k < i);
        aboard = aboard + up - down;
        h[i] = aboard;
        highest = highest.max(aboard);
    }
    Peaks {
        highest,
        heaviest: t[Jobs::HEAVIEST] as usize,
    }
}
