// The tests of a place that read the route only: window and metres.
#![tactic(auto)]

ghost use Rattle.std.specs.Prelude.{◌≡◌, max, ◌+◌, ◌<◌, pos, take, length};
ghost use Rattle.std.specs.Int.Signed.{le_z};
ghost use Rattle.rules.specs.Time.{driven};
ghost use Rattle.sheet.specs.Place.{Laid};
ghost use Rattle.day.specs.Tell.{day_of};
ghost use Rattle.along.specs.Route.{Route};
ghost use Rattle.walks.specs.Walks.{struck};
ghost use Rattle.gaps.specs.Gaps.{in_window, fits_in, fits_place, Tables, gap_at, GapIn, Sifted, PlacesAt};

use along::times::{in_time, last_moment, reach};
use bits::Each;
use day::look::{earliest, metres, seconds, service};
use rules::Node;
use sheet::Layout;

// A gap of the route, into which a node is tried: its two stops, when the first is left, by when the second has to be started, how many metres
// the route may have with the leg between them still counted, and how many it has.
#[derive(Clone, Copy)]
pub struct Gap {
    pub from: usize,
    pub to: usize,
    pub leave: usize,
    pub last: i64,
    pub most: usize,
    pub total: usize,
}

// A node that is tried at each of its places, on a route of so many metres.
#[derive(Clone, Copy)]
pub struct Trial {
    pub node: usize,
    pub places: u64,
    pub total: usize,
}

// Whether the later of two moments is not after `last`: neither is. Nothing is chosen between them, so nothing has to be guessed by the machine.
#[tactic(auto, using(crate::proofs::GapLaws::both_later))]
fn both_in_time(a: usize, b: usize, last: i64) -> bool
    requires { (a < 4611686018427387904) × (b < 4611686018427387904) }
    ensures { result ≡ le_z (pos (max a b)) last }
{
    in_time(a, last) & in_time(b, last)
}

// Window: x is started in time, and what follows it, too. x starts at its earliest or on arrival, whichever is later, and the next stop so much after.
fn window(s: &[u8], at: Layout, x: usize, gap: Gap) -> bool
    requires { Laid s.now at × (x < at.nodes) × GapIn at.nodes gap }
    ensures { result ≡ in_window (day_of s.now) x gap }
{
    let e = earliest(s, at, x);
    let a = gap.leave + seconds(s, at, gap.from, x);
    if !both_in_time(e, a, last_moment(s, at, x)) {
        return false;
    }
    let on = service(s, at, x) + seconds(s, at, x, gap.to);
    both_in_time(e + on, a + on, gap.last)
}

// Window, and metres: the route with x in the gap is not too long.
#[tactic(auto, unfolding(crate::specs::Gaps::fits_in))]
fn fits_in(s: &[u8], at: Layout, x: usize, gap: Gap) -> bool
    requires { Laid s.now at × (x < at.nodes) × GapIn at.nodes gap }
    ensures { result ≡ fits_in (day_of s.now) x gap }
{
    window(s, at, x, gap)
        && gap.total + metres(s, at, gap.from, x) + metres(s, at, x, gap.to) <= gap.most
}

// The word without the place of x at the gap, where window or metres strike it.
fn tried(s: &[u8], at: Layout, word: u64, x: usize, gap: Gap) -> u64
    requires { Laid s.now at × (x < at.nodes) × GapIn at.nodes gap }
    ensures { result ≡ struck word gap.from (fits_in (day_of s.now) x gap) }
{
    walks::strike(word, gap.from, fits_in(s, at, x, gap))
}

// The gap behind p, in the leg i.
fn gap_at(
    p: usize,
    i: usize,
    total: usize,
    route: &[usize; Node::MOST],
    leave: &[usize; Node::MOST],
    l: &[i64; Node::MOST],
    most: &[usize; Node::MOST],
) -> Gap
    requires { i < 63 }
    ensures { result ≡ gap_at route.now leave.now l.now most.now total p i }
{
    Gap {
        from: p,
        to: route[i + 1],
        leave: leave[i],
        last: l[i + 1],
        most: most[i],
        total,
    }
}

// Of each leg: when its stop is left, and how long the route may be with the leg still counted; and the metres of them all. No node is in
// these, so they are found once for all, in one walk that has E at hand.
pub fn legs_of(
    s: &[u8],
    at: Layout,
    limit: usize,
    route: &[usize; Node::MOST],
    legs: usize,
    leave: &mut [usize; Node::MOST],
    most: &mut [usize; Node::MOST],
) -> usize
    requires laid { Laid s.now at × Route at.nodes route.now (legs + 1) × (limit < 1099511627776) }
    requires leave_len { (length leave.old ≡ 64) × (length most.old ≡ 64) }
    ensures { Tables (day_of s.now) limit route.now legs leave.new most.new
        × (result ≡ driven (day_of s.now) (take (legs + 1) route.now)) × (result < 1099511627776) }
{
    let mut total = 0;
    let mut p = route[0];
    let mut t = earliest(s, at, p);
    for i in 0..legs {
        let k = route[i + 1];
        let d = metres(s, at, p, k);
        let left = t + service(s, at, p);
        leave[i] = left;
        most[i] = limit + d;
        total += d;
        t = reach(s, at, left, p, k);
        p = k;
    }
    total
}

// The places of a node that window and metres leave; `spots` has the leg of each.
pub fn stand(
    s: &[u8],
    at: Layout,
    trial: Trial,
    route: &[usize; Node::MOST],
    spots: &[usize; Node::MOST],
    leave: &[usize; Node::MOST],
    l: &[i64; Node::MOST],
    most: &[usize; Node::MOST],
) -> u64
    requires { Laid s.now at × PlacesAt at.nodes route.now leave.now spots.now trial }
    ensures { Sifted (fits_place (day_of s.now) route.now spots.now leave.now l.now
        most.now trial) trial.places result }
{
    let mut w = trial.places;
    for p in Each::of(trial.places) {
        let gap = gap_at(p, spots[p], trial.total, route, leave, l, most);
        w = tried(s, at, w, trial.node, gap);
    }
    w
}
