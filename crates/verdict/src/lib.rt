// Who is owed, and the verdict of a state.
#![tactic(auto)]

ghost use Rattle.std.specs.Prelude.{◌≡◌, not, ◌&&◌, ◌||◌, List, ℕ, ◌+◌, ◌<◌, ◌≤◌, get_or, length, take, eqb};
ghost use Rattle.laws.specs.Basic.{all_below, any, mem};
ghost use Rattle.bits.specs.Places.{has};
ghost use Rattle.rules.specs.Verdict.{owed, alive};
ghost use Rattle.sheet.specs.Place.{Laid};
ghost use Rattle.day.specs.Tell.{day_of, job_in};
ghost use Rattle.rules.specs.Day.{Day};
ghost use Rattle.day.specs.Seen.{Placed};
ghost use Rattle.along.specs.Route.{Route};
ghost use Rattle.along.specs.Sets.{plan_from};
ghost use Rattle.along.specs.Ready.{Ready};
ghost use Rattle.verdict.specs.Verdict.{joins, member_open, road_kept, load_kept, profile_kept, Coursed};
ghost use Rattle.rules.specs.declared.Van.{Van};
ghost use Rattle.sheet.specs.declared.Layout.{Layout};
ghost use Rattle.along.specs.Nodes.{ByNode, Routed};

use along::loads::{at_start, comes, goes};
use along::nodes::Jobs;
use along::times::{arrive, in_time, last_moment};
use bits::Each;
use rules::{Job, Node, Van};
use sheet::Layout;

// Whether two sets have a member in common.
fn meets(a: u64, b: u64) -> bool
    ensures { result ≡ not (all_below 64 (λ p. not (has a p && has b p))) }
{
    a & b != 0
}

// The set with the other end of the job too, if it is a transfer with one end at x.
fn with_partner(job: Job, x: usize, word: u64) -> u64
    requires { Placed job }
    ensures { (y : ℕ) → has result y ≡ (has word y || joins x y job) }
{
    match job {
        Job::Clean { .. } => word,
        Job::Soiled { .. } => word,
        Job::Transfer { from, to, .. } => {
            if from == x {
                bits::put(word, to)
            } else if to == x {
                bits::put(word, from)
            } else {
                word
            }
        },
    }
}

// The transfer partners of x, as a set: one pass over the jobs, whatever routes and marks they are then held against.
pub fn partners(s: &[u8], at: Layout, x: usize) -> u64
    requires { Laid s.now at }
    ensures { (y : ℕ) → has result y ≡ any (joins x y) (day_of s.now).jobs }
{
    let mut word: u64 = 0;
    for j in 0..at.jobs {
        let job = day::jobs::job(s, at, j);
        word = with_partner(job, x, word);
    }
    word
}

// The places of x; a number that is no node has none.
fn places(sets: &[u64; Node::MOST], x: usize) -> u64
    requires { length sets.now ≡ 64 }
    ensures { result ≡ get_or sets.now x 0 }
{
    if x < Node::MOST { sets[x] } else { 0 }
}

// Whether x has an open place: the count of ones in its word is not 0.
fn is_open(sets: &[u64; Node::MOST], x: usize) -> bool
    requires { length sets.now ≡ 64 }
    ensures { result ≡ not (eqb (get_or sets.now x 0) 0) }
{
    bits::count(places(sets, x)) != 0
}

// Windows and metres in one pass along the route: no start is too late, the first and the last one among them, and the legs are together within
// the limit.
fn on_the_road(
    s: &[u8],
    at: Layout,
    limit: usize,
    route: &[usize; Node::MOST],
    stops: usize,
) -> bool
    requires { Laid s.now at × Route at.nodes route.now stops }
    ensures { result ≡ road_kept limit (day_of s.now) (take stops route.now) }
{
    let mut p = route[0];
    let mut t = day::look::earliest(s, at, p);
    if !in_time(t, last_moment(s, at, p)) {
        return false;
    }
    let mut total = 0;
    for &x in &route[1..stops] {
        t = arrive(s, at, t, p, x);
        if !in_time(t, last_moment(s, at, x)) {
            return false;
        }
        total += day::look::metres(s, at, p, x);
        p = x;
    }
    total <= limit
}

// Whether x, whose transfer partners are given, is owed: unplaced, and marked or with a partner that is marked or on the route.
pub fn owes(route: &[usize; Node::MOST], stops: usize, marks: u64, partners: u64, x: usize) -> bool
    requires { (length route.now ≡ 64) × (stops ≤ 64) × ((i : ℕ) → i < stops → get_or route.now i 0 < 64) }
    ensures { (d : Day) → ((y : ℕ) → has partners y ≡ any (joins x y) d.jobs)
        → result ≡ owed d (take stops route.now) (has marks) x }
{
    let on = along::spots::word(route, stops);
    let placed = bits::has(on, x);
    let marked = bits::has(marks, x);
    let pair = meets(partners, bits::join(marks, on));
    !placed & (marked | pair)
}

// Whether x is owed.
pub fn owed(
    s: &[u8],
    at: Layout,
    route: &[usize; Node::MOST],
    stops: usize,
    marks: u64,
    x: usize,
) -> bool
    requires { Laid s.now at × Route at.nodes route.now stops }
    ensures { result ≡ owed (day_of s.now) (take stops route.now) (has marks) x }
{
    let pair = partners(s, at, x);
    owes(route, stops, marks, pair, x)
}

// The loads and the order of the transfers in one pass along the route, where `on` has its nodes. A transfer in wrong order shows where it begins.
fn carried(
    s: &[u8],
    at: Layout,
    t: &[u32; Jobs::ROOM],
    van: Van,
    route: &[usize; Node::MOST],
    stops: usize,
    on: u64,
) -> bool
    requires { Routed s.now at route.now stops t.now × ((x : ℕ) → has on x ≡ mem x (take stops route.now)) }
    ensures { result ≡ load_kept van (day_of s.now) (take stops route.now) }
{
    let mut aboard = at_start(s, at, t, route, stops);
    let mut seen: u64 = 0;
    for i in 0..stops {
        let x = route[i];
        let other = t[Jobs::PARTNER + x] as usize;
        let begun = bits::holds(seen, other);
        if begun & (t[Jobs::FIRST + x] != 0) {
            return false;
        }
        let up = comes(t, x, bits::holds(on, other));
        let down = goes(t, x, begun);
        aboard = aboard + up - down;
        if (i + 1 < stops) & (van.capacity < aboard) {
            return false;
        }
        seen = bits::put(seen, x);
    }
    true
}

// Clean before soiled, where the sheet has the profile, in one pass along the route: no stop with a clean load comes behind one with a soiled load.
fn clean_first(
    s: &[u8],
    at: Layout,
    t: &[u32; Jobs::ROOM],
    route: &[usize; Node::MOST],
    stops: usize,
) -> bool
    requires { Routed s.now at route.now stops t.now }
    ensures { result ≡ profile_kept (day_of s.now) (take stops route.now) }
{
    if !day::look::profile(s, at) {
        return true;
    }
    let mut met = false;
    for &x in &route[..stops] {
        if met & (t[x] != 0) {
            return false;
        }
        met |= t[Jobs::SOILED + x] != 0;
    }
    true
}

// Every member of a set has an open place: each is asked, from the least on.
fn all_open(sets: &[u64; Node::MOST], members: u64) -> bool
    requires { length sets.now ≡ 64 }
    ensures { result ≡ all_below 64 (member_open sets.now members) }
{
    for x in Each::of(members) {
        if !is_open(sets, x) {
            return false;
        }
    }
    true
}

// What hangs on a van's route alone, and stands while the route does.
#[derive(Clone, Copy)]
pub struct Course {
    pub keeps: bool,
    pub on: u64,
    pub called: u64,
}

// Whether the route keeps windows, metres, loads, the order of its transfers and the profile; its nodes, and their partners.
pub fn sound(
    s: &[u8],
    at: Layout,
    t: &[u32; Jobs::ROOM],
    van: Van,
    route: &[usize; Node::MOST],
    stops: usize,
) -> Course
    requires { Routed s.now at route.now stops t.now }
    ensures { Coursed van (day_of s.now) t.now (take stops route.now) result }
{
    let on = along::spots::word(route, stops);
    let called = along::nodes::partners_of(t, on);
    let road = on_the_road(s, at, van.limit, route, stops);
    let load = carried(s, at, t, van, route, stops, on);
    let order = clean_first(s, at, t, route, stops);
    Course {
        keeps: road & load & order,
        on,
        called,
    }
}

// The verdict of a state whose route has the course: who is marked, and who is a partner of a node marked or on the route, is on it or open.
pub fn stand(t: &[u32; Jobs::ROOM], sets: &[u64; Node::MOST], marks: u64, course: Course) -> bool
    requires { (length t.now ≡ 321) × ((x : ℕ) → x < 64 → get_or t.now (256 + x) 0 < 64) × (length sets.now ≡ 64) }
    ensures { (v : Van) (s : List ℕ) (at : Layout) (l : List ℕ) (n : ℕ) → Ready s at l n sets.now marks
        → ByNode (job_in s) at.jobs t.now → Coursed v (day_of s) t.now (take n l) course
        → result ≡ alive v (day_of s) (plan_from l n sets.now marks) }
{
    if !course.keeps {
        return false;
    }
    let paired = along::nodes::partners_of(t, marks);
    let owing = bits::join(marks, bits::join(course.called, paired));
    let left = bits::minus(owing, course.on);
    all_open(sets, left)
}

// The verdict of a state in form.
pub fn alive<'a>(
    s: &[u8],
    at: Layout,
    t: &[u32; Jobs::ROOM],
    van: Van,
    route: &'a [usize; Node::MOST],
    stops: usize,
    sets: &'a [u64; Node::MOST],
    marks: u64,
) -> bool
    requires { Ready s.now at route.now stops sets.now marks × ByNode (job_in s.now) at.jobs t.now }
    ensures { result ≡ alive van (day_of s.now) (plan_from route.now stops sets.now marks) }
{
    let way = sound(s, at, t, van, route, stops);
    stand(t, sets, marks, way)
}
