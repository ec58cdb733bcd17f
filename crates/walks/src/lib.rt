// A word of places against a load that is to ride: leg by leg, or all legs at once where each has room.
#![tactic(auto)]

ghost use Rattle.std.specs.Prelude.{◌≡◌, true, false, not, ◌&&◌, ◌||◌, ℕ, ◌+◌, ◌-◌, ◌<◌, ◌≤◌, leb, get_or, length, replicate};
ghost use Rattle.bits.specs.Places.{has};
ghost use Rattle.walks.specs.Walks.{Kept, Legs, Before, Marked, struck, rides_up, rides_down, from_start, to_end};

use rules::Node;

// A load that is to ride: how many legs the route has, the most that is aboard on any of them, the capacity, and how much the load is.
#[derive(Clone, Copy)]
pub struct Ride {
    pub legs: usize,
    pub highest: usize,
    pub capacity: usize,
    pub load: usize,
}

// The other end of a transfer: its node, and its open places.
#[derive(Clone, Copy)]
pub struct Partner {
    pub node: usize,
    pub places: u64,
}

// Whether a load fits on a leg that has so much aboard.
pub fn has_room(aboard: usize, load: usize, capacity: usize) -> bool
    requires { (aboard < 1099511627776) × (load < 4294967296) }
    ensures { result ≡ leb (aboard + load) capacity }
{
    aboard + load <= capacity
}

// Whether a load fits on the fullest leg, and so on every one.
fn fits_all(ride: Ride) -> bool
    requires { (ride.highest < 1099511627776) × (ride.load < 4294967296) }
    ensures { result ≡ leb (ride.highest + ride.load) ride.capacity }
{
    has_room(ride.highest, ride.load, ride.capacity)
}

// Whether a ride is on a leg that has so much aboard: the load fits, and the ride begins there or is on the leg before.
fn rides(aboard: usize, ride: Ride, met: bool, on: bool) -> bool
    requires { (aboard < 1099511627776) × (ride.load < 4294967296) }
    ensures { result ≡ (leb (aboard + ride.load) ride.capacity && (met || on)) }
{
    has_room(aboard, ride.load, ride.capacity) & (met | on)
}

// The word without the place p, unless it stays.
pub fn strike(word: u64, p: usize, stays: bool) -> u64
    requires { p < 64 }
    ensures { result ≡ struck word p stays }
{
    if stays { word } else { bits::take(word, p) }
}

// The places of a that are none of b, each told by itself.
fn less(a: u64, b: u64) -> u64
    ensures { (q : ℕ) → has result q ≡ (has a q && not (has b q)) }
{
    bits::minus(a, b)
}

// The nodes before each stop that a leg leaves or enters, as sets, into an array of zeros.
pub fn befores(route: &[usize; Node::MOST], legs: usize, before: &mut [u64; Node::MOST])
    requires { (length route.now ≡ 64) × (legs < 64) × ((i : ℕ) → i < legs → get_or route.now i 0 < 64) × (before.old ≡ replicate 64 0) }
    ensures { Before route.now legs before.new }
{
    let mut w: u64 = 0;
    for i in 0..legs {
        let p = route[i];
        w = bits::put(w, p);
        before[i + 1] = w;
    }
}

// The first of the legs before `end` in which a node with these places is open; `end` where it is in none.
fn first_open(route: &[usize; Node::MOST], places: u64, end: usize) -> usize
    requires { (length route.now ≡ 64) × (end ≤ 64) × ((i : ℕ) → i < end → get_or route.now i 0 < 64) }
    ensures { (result ≤ end) × ((i : ℕ) → i < result → has places (get_or route.now i 0) ≡ false)
        × (result < end → has places (get_or route.now result 0) ≡ true) }
{
    if places == 0 {
        return end;
    }
    (0..end)
        .find(|i| bits::holds(places, route[*i]))
        .unwrap_or(end)
}

// From the end: one more than the last of the legs from `start` on in which it is open; `start` where it is in none.
fn last_open(route: &[usize; Node::MOST], places: u64, start: usize, legs: usize) -> usize
    requires { (length route.now ≡ 64) × (legs ≤ 64) × (start ≤ legs) × ((i : ℕ) → i < legs → get_or route.now i 0 < 64) }
    ensures { (start ≤ result) × (result ≤ legs) × ((i : ℕ) → result ≤ i → i < legs → has places (get_or route.now i 0) ≡ false)
        × (start < result → has places (get_or route.now (result - 1) 0) ≡ true) }
{
    if places == 0 {
        return start;
    }
    (start..legs)
        .rev()
        .find(|leg| bits::holds(places, route[*leg]))
        .map_or(start, |leg| leg + 1)
}

// Forward: a place stays where the load fits leg by leg back to a leg at which the partner stands or in which it is open. Where the fullest leg
// has room, a ride that has begun goes on to the end, so only the legs before the first such leg go, all at once. A word with no place needs no walk.
pub fn forward(
    word: u64,
    route: &[usize; Node::MOST],
    h: &[usize; Node::MOST],
    spots: &[usize; Node::MOST],
    before: &[u64; Node::MOST],
    ride: Ride,
    partner: Partner,
) -> u64
    requires { Legs route.now h.now ride × Marked route.now ride.legs spots.now before.now × (partner.node < 64) }
    ensures { Kept route.now 0 ride.legs (rides_up route.now h.now ride partner) word result }
{
    if word == 0 {
        return 0;
    }
    if fits_all(ride) {
        let end = spots[partner.node].min(ride.legs);
        let first = first_open(route, partner.places, end);
        return less(word, before[first]);
    }
    let mut w = word;
    let mut on = false;
    for i in 0..ride.legs {
        let p = route[i];
        let met = (p == partner.node) | bits::holds(partner.places, p);
        on = rides(h[i], ride, met, on);
        w = strike(w, p, on);
    }
    w
}

// Backward: the same from the end, where the partner stands at the stop that the leg enters: the legs behind the last such leg go.
pub fn backward(
    word: u64,
    route: &[usize; Node::MOST],
    h: &[usize; Node::MOST],
    spots: &[usize; Node::MOST],
    before: &[u64; Node::MOST],
    ride: Ride,
    partner: Partner,
) -> u64
    requires { Legs route.now h.now ride × Marked route.now ride.legs spots.now before.now × (partner.node < 64) }
    ensures { Kept route.now 0 ride.legs (rides_down route.now h.now ride partner) word result }
{
    if word == 0 {
        return 0;
    }
    if fits_all(ride) {
        let legs = ride.legs;
        let stop = spots[partner.node];
        let start = if stop <= legs { stop } else { 0 };
        let last = last_open(route, partner.places, start, legs);
        return less(word, less(before[legs], before[last]));
    }
    let mut w = word;
    let mut on = false;
    for i in (0..ride.legs).rev() {
        let p = route[i];
        let met = (route[i + 1] == partner.node) | bits::holds(partner.places, p);
        on = rides(h[i], ride, met, on);
        w = strike(w, p, on);
    }
    w
}

// A load from the start: a place stays where it fits leg by leg back to the first. Where the fullest leg has room, none is struck.
pub fn from_start(
    word: u64,
    route: &[usize; Node::MOST],
    h: &[usize; Node::MOST],
    ride: Ride,
) -> u64
    requires { Legs route.now h.now ride }
    ensures { Kept route.now 0 ride.legs (from_start h.now ride) word result }
{
    if word == 0 {
        return 0;
    }
    if fits_all(ride) {
        return word;
    }
    let mut w = word;
    let mut on = true;
    for i in 0..ride.legs {
        on = rides(h[i], ride, false, on);
        w = strike(w, route[i], on);
    }
    w
}

// A load to the end: the same from the last leg on.
pub fn to_end(word: u64, route: &[usize; Node::MOST], h: &[usize; Node::MOST], ride: Ride) -> u64
    requires { Legs route.now h.now ride }
    ensures { Kept route.now 0 ride.legs (to_end h.now ride) word result }
{
    if word == 0 {
        return 0;
    }
    if fits_all(ride) {
        return word;
    }
    let mut w = word;
    let mut on = true;
    for i in (0..ride.legs).rev() {
        on = rides(h[i], ride, false, on);
        w = strike(w, route[i], on);
    }
    w
}
