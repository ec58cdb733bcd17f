// One round of settling: what stays open against the places at its beginning.
ghost use Rattle.std.specs.Prelude.{◌≡◌, true, not, ◌||◌, ◌-◌, ◌<◌, take, length};
ghost use Rattle.laws.specs.Basic.{peak};
ghost use Rattle.sheet.specs.Place.{Laid};
ghost use Rattle.day.specs.Tell.{job_in, day_of};
ghost use Rattle.day.specs.Seen.{Placed};
ghost use Rattle.along.specs.Spots.{Spots};
ghost use Rattle.along.specs.Nodes.{ByNode};
ghost use Rattle.walks.specs.Walks.{Kept, Legs, Marked};
ghost use Rattle.along.specs.Sets.{places_in, sets_of};
ghost use Rattle.along.specs.Ready.{Ready};
ghost use Rattle.rules.specs.Time.{driven};
ghost use Rattle.rules.specs.Load.{load_of};
ghost use Rattle.rules.specs.Settle.{round};
ghost use Rattle.gaps.specs.Gaps.{stands_at};
ghost use Rattle.settle.specs.Round.{Kepts, ride_of, node_of, load_rides, load_leaves, mixed_leaves, jobs_leave, same_sets};
ghost use Rattle.settle.specs.Round.{pair_from, pair_leaves, two_ends};
ghost use Rattle.settle.specs.Settles.{Read};

use along::loads::Peaks;
use along::nodes::Jobs;
use gaps::{Trial, legs_of, stand};
use profile::{cut, shut_legs};
use rules::{Job, Node, Van};
use sheet::Layout;
use walks::{Partner, Ride, backward, forward, from_start, has_room, to_end};

// What a pass over the places carries: the van, how many stops the route has, and the peaks of what is aboard and loaded.
#[derive(Clone, Copy)]
pub struct Pass {
    pub van: Van,
    pub stops: usize,
    pub peaks: Peaks,
}

// A load as it rides in a pass.
fn ride_of(pass: Pass, load: usize) -> Ride
    requires { 0 < pass.stops }
    ensures { result ≡ ride_of pass load }
{
    Ride {
        legs: pass.stops - 1,
        highest: pass.peaks.highest,
        capacity: pass.van.capacity,
        load,
    }
}

// The node of a clean or a soiled job; the first of a transfer.
fn node_of(job: Job) -> usize
    ensures { result ≡ node_of job }
{
    match job {
        Job::Clean { node, .. } => node,
        Job::Soiled { node, .. } => node,
        Job::Transfer { from, .. } => from,
    }
}

// What a clean or a soiled job leaves of the places of its node: the one rides to it from the start, the other from it to the end.
fn left_of(
    job: Job,
    word: u64,
    pass: Pass,
    route: &[usize; Node::MOST],
    h: &[usize; Node::MOST],
) -> u64
    requires { (0 < pass.stops) × Legs route.now h.now (ride_of pass (load_of job)) }
    ensures { Kept route.now 0 (pass.stops - 1) (load_rides h.now pass job) word result }
{
    match job {
        Job::Clean { load, .. } => from_start(word, route, h, ride_of(pass, load)),
        Job::Soiled { load, .. } => to_end(word, route, h, ride_of(pass, load)),
        Job::Transfer { .. } => word,
    }
}

// The clean and the soiled jobs against the places of their nodes. Where the heaviest load fits on the fullest leg, none of them strikes.
fn strike_loads(
    s: &[u8],
    at: Layout,
    pass: Pass,
    new: &mut [u64; Node::MOST],
    route: &[usize; Node::MOST],
    h: &[usize; Node::MOST],
)
    requires laid { Laid s.now at × (0 < pass.stops) × (length new.old ≡ 64) × Legs route.now h.now (ride_of pass 0) }
    requires heaviest_value { pass.peaks.heaviest ≡ peak (λ k. load_of (job_in s.now k)) at.jobs }
    ensures { Kepts route.now (pass.stops - 1) (jobs_leave (load_leaves h.now pass) (job_in s.now) at.jobs)
        new.old new.new }
{
    if has_room(pass.peaks.highest, pass.peaks.heaviest, pass.van.capacity) {
        return;
    }
    for j in 0..at.jobs {
        let job = day::jobs::job(s, at, j);
        let x = node_of(job);
        new[x] = left_of(job, new[x], pass, route, h);
    }
}

// The transfer that begins at x against the places of its two ends: each rides to where the other stands or is open. Whether it strikes something,
// or `struck`. Where neither end has a place, there is nothing to strike.
fn strike_pair(
    t: &[u32; Jobs::ROOM],
    x: usize,
    struck: bool,
    pass: Pass,
    new: &mut [u64; Node::MOST],
    route: &[usize; Node::MOST],
    spots: &[usize; Node::MOST],
    before: &[u64; Node::MOST],
    h: &[usize; Node::MOST],
) -> bool
    requires t_len { (length t.now ≡ 321) × Placed (pair_from t.now x) × (two_ends (pair_from t.now x) ≡ true) × (0 < pass.stops) }
    requires len { (length new.old ≡ 64) × Legs route.now h.now (ride_of pass (load_of (pair_from t.now x)))
        × Marked route.now (pass.stops - 1) spots.now before.now }
    ensures { Kepts route.now (pass.stops - 1)
        (pair_leaves new.old route.now h.now pass (pair_from t.now x))
        new.old new.new × (result ≡ (struck || not (same_sets new.old new.new))) }
{
    let y = t[Jobs::PARTNER + x] as usize;
    let a = new[x];
    let b = new[y];
    if (a == 0) & (b == 0) {
        return struck;
    }
    let ride = ride_of(pass, t[Jobs::FIRST + x] as usize);
    let there = Partner { node: y, places: b };
    let c = backward(a, route, h, spots, before, ride, there);
    new[x] = c;
    let first = struck | (a != c);
    let here = Partner { node: x, places: a };
    let d = forward(b, route, h, spots, before, ride, here);
    new[y] = d;
    first | (b != d)
}

// The transfers against the places of their ends, and whether they strike something: at each node the one that begins there. No two of them share
// a node, so the words of each are those of the beginning when its turn comes.
pub fn strike_pairs(
    s: &[u8],
    at: Layout,
    t: &[u32; Jobs::ROOM],
    pass: Pass,
    new: &mut [u64; Node::MOST],
    route: &[usize; Node::MOST],
    spots: &[usize; Node::MOST],
    before: &[u64; Node::MOST],
    h: &[usize; Node::MOST],
) -> bool
    requires ready { Ready s.now at route.now pass.stops new.old 0 × Legs route.now h.now (ride_of pass 0) }
    requires marked { Marked route.now (pass.stops - 1) spots.now before.now × ByNode (job_in s.now) at.jobs t.now }
    ensures { Kepts route.now (pass.stops - 1)
        (jobs_leave (pair_leaves new.old route.now h.now pass) (job_in s.now) at.jobs)
        new.old new.new × (result ≡ not (same_sets new.old new.new)) }
{
    let mut struck = false;
    for x in 0..at.nodes {
        if t[Jobs::FIRST + x] != 0 {
            struck = strike_pair(t, x, struck, pass, new, route, spots, before, h);
        }
    }
    struck
}

// Window and metres against the places of every node.
fn stand_all(
    s: &[u8],
    at: Layout,
    pass: Pass,
    new: &mut [u64; Node::MOST],
    route: &[usize; Node::MOST],
    spots: &[usize; Node::MOST],
    l: &[i64; Node::MOST],
)
    requires ready { Ready s.now at route.now pass.stops new.old 0 × Spots route.now pass.stops spots.now }
    requires limit_bound { pass.van.limit < 1099511627776 }
    ensures { Kepts route.now (pass.stops - 1)
        (stands_at (day_of s.now) pass.van.limit route.now l.now
        (driven (day_of s.now) (take pass.stops route.now))) new.old new.new }
{
    let mut leave = [0usize; Node::MOST];
    let mut most = [0usize; Node::MOST];
    let legs = pass.stops - 1;
    let total = legs_of(s, at, pass.van.limit, route, legs, &mut leave, &mut most);
    for x in 0..at.nodes {
        let trial = Trial {
            node: x,
            places: new[x],
            total,
        };
        new[x] = stand(s, at, trial, route, spots, &leave, l, &most);
    }
}

// Clean before soiled, where the sheet has the profile: the places of every node against the legs that are shut to it.
fn strike_mixed(
    s: &[u8],
    at: Layout,
    stops: usize,
    new: &mut [u64; Node::MOST],
    route: &[usize; Node::MOST],
)
    requires { Ready s.now at route.now stops new.old 0 }
    ensures { Kepts route.now (stops - 1) (mixed_leaves (day_of s.now) (take stops route.now))
        new.old new.new }
{
    if !day::look::profile(s, at) {
        return;
    }
    let jobs = day::jobs::look_over(s, at);
    let shut = shut_legs(route, stops - 1, jobs.clean, jobs.soiled);
    for x in 0..at.nodes {
        new[x] = cut(new[x], x, shut);
    }
}

// The first round. The transfers come first, while every word is that of the beginning: no other test asks of the places of a partner. Then clean
// before soiled, which takes many places at once: window and metres ask those that are left one by one.
pub fn round(
    s: &[u8],
    at: Layout,
    t: &[u32; Jobs::ROOM],
    pass: Pass,
    new: &mut [u64; Node::MOST],
    route: &[usize; Node::MOST],
    spots: &[usize; Node::MOST],
    before: &[u64; Node::MOST],
    l: &[i64; Node::MOST],
    h: &[usize; Node::MOST],
)
    requires ready { Ready s.now at route.now pass.stops new.old 0 × Read s.now at route.now pass l.now h.now spots.now before.now }
    requires by_node { ByNode (job_in s.now) at.jobs t.now }
    ensures { new.new
        ≡ sets_of (round pass.van (day_of s.now) (take pass.stops route.now) (places_in new.old)) }
{
    strike_pairs(s, at, t, pass, new, route, spots, before, h);
    strike_mixed(s, at, pass.stops, new, route);
    stand_all(s, at, pass, new, route, spots, l);
    strike_loads(s, at, pass, new, route, h);
}
