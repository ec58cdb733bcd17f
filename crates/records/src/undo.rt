// Undoing: a record that fits is undone; one that does not changes nothing. Meanwhile the route is kept by neighbours and sets keep legs that are
// gone, so that a record costs the same however long the route is; both arrays are put right once at the end.
ghost use Rattle.std.specs.Prelude.{◌≡◌, true, false, ◌&&◌, List, map, ℕ, ◌-◌, ◌≤◌, ◌<◌, ◌^◌, get_or, length};
ghost use Rattle.bits.specs.Places.{has, without, within};
ghost use Rattle.board.specs.Board.{Board, board};
ghost use Rattle.board.specs.Held.{Ends, Sound};
ghost use Rattle.records.specs.Trail.{room_of};
ghost use Rattle.records.specs.Undo.{strictly, undid, undo_shrunk, undo_placed, undo_marked, undo_obliged, undo_one, undo_many};
ghost use Rattle.records.specs.Undoing.{cut, Beside, Undoing, Follows};

use crate::write::Record;
use board::Figures;
use board::form::inner;
use board::route::word;
use rules::Node;

// Whether it fitted, and the numbers of the board after, its legs as a set among them.
#[derive(Clone, Copy)]
pub struct Undone {
    pub fits: bool,
    pub stops: usize,
    pub marks: u64,
    pub must: u64,
    pub legs: u64,
}

// A record that does not fit: the numbers as they were.
fn misfit(u: Undone) -> Undone
    ensures { (n : ℕ) (b : Board) (next last sets : List ℕ) → Undoing n b u next last sets → Follows n (false, b) result next last sets }
{
    Undone {
        fits: false,
        stops: u.stops,
        marks: u.marks,
        must: u.must,
        legs: u.legs,
    }
}

#[tactic(auto, unfolding(crate::specs::Undo::strictly))]
fn grows(v: u64, w: u64, legs: u64) -> bool
    ensures { result ≡ strictly v w && within w legs }
{
    (bits::within(v, w) & !bits::within(w, v)) & bits::within(w, legs)
}

// Of a set the legs that are there.
#[tactic(auto, unfolding(crate::specs::Undoing::cut))]
fn cut_set(w: u64, legs: u64) -> u64
    ensures { (result ≡ cut legs w) × (w < 2 ^ 64) }
{
    w & legs
}

// A set made smaller: x gets its larger set w back.
fn undo_shrunk(sets: &mut [u64; Node::MOST], u: Undone, n: usize, x: usize, w: u64) -> Undone
    requires { (b : Board) × (next last : List ℕ) × Undoing n b u next last sets.old }
    ensures { (b : Board) (next last : List ℕ) → Undoing n b u next last sets.old
        → Follows n (undo_shrunk n b x w) result next last sets.new }
{
    if !inner(n, x) {
        return misfit(u);
    }
    let legs = u.legs;
    let v = sets[x];
    let fits = !bits::has(legs, x) & grows(cut_set(v, legs), w, legs);
    if !fits {
        return misfit(u);
    }
    sets[x] = w;
    Undone {
        fits: true,
        stops: u.stops,
        marks: u.marks,
        must: u.must,
        legs,
    }
}

fn left_legs(w: u64, legs: u64, x: usize, stop: usize) -> bool
    ensures { result ≡ within w (without legs x) && has w stop }
{
    bits::within(w, bits::without(legs, x)) & bits::has(w, stop)
}

// A placing: x is taken from between its neighbours and gets its old set back. Its leg is gone, and so it is out of every set.
fn undo_placed(
    next: &mut [u8; Node::MOST],
    last: &mut [u8; Node::MOST],
    sets: &mut [u64; Node::MOST],
    u: Undone,
    n: usize,
    x: usize,
    old: u64,
) -> Undone
    requires { (b : Board) × Undoing n b u next.old last.old sets.old }
    ensures { (b : Board) → Undoing n b u next.old last.old sets.old
        → Follows n (undo_placed n b x old) result next.new last.new sets.new }
{
    let legs = u.legs;
    if !(inner(n, x) & bits::has(legs, x)) {
        return misfit(u);
    }
    let p = last[x];
    if !left_legs(old, legs, x, p as usize) {
        return misfit(u);
    }
    let k = next[x];
    next[p as usize] = k;
    last[k as usize] = p;
    sets[x] = old;
    Undone {
        fits: true,
        stops: u.stops - 1,
        marks: u.marks,
        must: u.must,
        legs: bits::without(legs, x),
    }
}

// A mark: that of x is taken off. Marks are on inner nodes only, and of these the legs tell which are on the route.
fn undo_marked(u: Undone, x: usize, w: u64) -> Undone
    ensures { (n : ℕ) (b : Board) (next last sets : List ℕ) → Undoing n b u next last sets → Follows n (undo_marked b x w) result next last sets }
{
    let legs = u.legs;
    let marks = u.marks;
    let fits = !bits::has(legs, x) & (bits::has(marks, x) & (w == 0));
    if !fits {
        return misfit(u);
    }
    Undone {
        fits: true,
        stops: u.stops,
        marks: bits::without(marks, x),
        must: u.must,
        legs,
    }
}

// A mark "must go somewhere": that of x is taken off, placed or not.
fn undo_obliged(u: Undone, x: usize, w: u64) -> Undone
    ensures { (n : ℕ) (b : Board) (next last sets : List ℕ) → Undoing n b u next last sets → Follows n (undo_obliged b x w) result next last sets }
{
    let marks = u.marks;
    let must = u.must;
    let fits = bits::has(must, x) & (w == 0);
    if !fits {
        return misfit(u);
    }
    Undone {
        fits: true,
        stops: u.stops,
        marks,
        must: bits::without(must, x),
        legs: u.legs,
    }
}

// The record with these two words: its kind and node, and the old set or 0.
fn undo_one(
    next: &mut [u8; Node::MOST],
    last: &mut [u8; Node::MOST],
    sets: &mut [u64; Node::MOST],
    u: Undone,
    n: usize,
    first: u64,
    w: u64,
) -> Undone
    requires { (b : Board) × Undoing n b u next.old last.old sets.old }
    ensures { (b : Board) → Undoing n b u next.old last.old sets.old
        → Follows n (undo_one n b first w) result next.new last.new sets.new }
{
    let kind = first / Record::WEIGHT;
    let x = (first % Record::WEIGHT) as usize;
    match kind {
        Record::SHRINKING => undo_shrunk(sets, u, n, x, w),
        Record::PLACING => undo_placed(next, last, sets, u, n, x, w),
        Record::MARKING => undo_marked(u, x, w),
        Record::OBLIGING => undo_obliged(u, x, w),
        _ => misfit(u),
    }
}

// The records from `base` on, newest first, as far as they fit.
#[tactic(auto, unfolding(crate::specs::Trail::room_of))]
fn undo_from(
    next: &mut [u8; Node::MOST],
    last: &mut [u8; Node::MOST],
    sets: &mut [u64; Node::MOST],
    begun: Undone,
    n: usize,
    records: usize,
    base: usize,
    trail: &[u64],
) -> Undone
    requires fits_value { ((b : Board) × Undoing n b begun next.old last.old sets.old) × (begun.fits ≡ true) }
    requires base_le_records { (base ≤ records) × (records ≤ room_of trail.now) }
    ensures { (b : Board) → Undoing n b begun next.old last.old sets.old
        → Follows n (undo_many (records - base) n b records trail.now) result next.new last.new sets.new }
{
    let mut u = begun;
    for i in (base..records).rev() {
        u = undo_one(next, last, sets, u, n, trail[2 * i], trail[2 * i + 1]);
        if !u.fits {
            return u;
        }
    }
    u
}

// The neighbours of each stop.
fn neighbours(
    next: &mut [u8; Node::MOST],
    last: &mut [u8; Node::MOST],
    route: &[usize; Node::MOST],
    stops: usize,
)
    requires next_len { (length next.old ≡ 64) × (length last.old ≡ 64) }
    requires by_index { (n marks must : ℕ) × (sets : List ℕ) × Sound n (board route.now stops sets marks must) }
    ensures { Beside stops route.now next.new last.new }
{
    for i in 1..stops {
        let p = route[i - 1];
        let k = route[i];
        next[p] = k as u8;
        last[k] = p as u8;
    }
}

// The same of each set.
fn cut_sets(sets: &mut [u64; Node::MOST], n: usize, legs: u64)
    requires { (length sets.old ≡ 64) × (n ≤ 64) × Ends n sets.old }
    ensures { (sets.new ≡ map (cut legs) sets.old) × ((y : ℕ) → y < 64 → get_or sets.old y 0 < 2 ^ 64) }
{
    for y in 0..n {
        sets[y] = cut_set(sets[y], legs);
    }
}

// The route by its neighbours, in an array where one of so many stops was.
fn walk(route: &mut [usize; Node::MOST], next: &[u8; Node::MOST], stops: usize, was: usize)
    requires route_len { (length route.old ≡ 64) × (was ≤ 64) × ((i : ℕ) → was ≤ i → i < 64 → get_or route.old i 0 ≡ 0) }
    requires by_index { (n : ℕ) × (b : Board) × (last : List ℕ) × Sound n b × (b.stops ≡ stops) × Beside b.stops b.route next.now last }
    ensures { (n : ℕ) (b : Board) (last : List ℕ) → Sound n b → b.stops ≡ stops → Beside b.stops b.route next.now last
        → route.new ≡ b.route }
{
    let mut p = 0;
    for i in 0..stops {
        route[i] = p;
        p = next[p] as usize;
    }
    for i in stops..was {
        route[i] = 0;
    }
}

// The records from `base` on undone, newest first, as far as they fit.
pub fn undo_many(
    route: &mut [usize; Node::MOST],
    sets: &mut [u64; Node::MOST],
    f: Figures,
    n: usize,
    base: usize,
    trail: &[u64],
) -> Undone
    requires { Sound n (board route.old f.stops sets.old f.marks f.must) × (base ≤ f.records) × (f.records ≤ room_of trail.now) }
    ensures { undo_many (f.records - base) n (board route.old f.stops sets.old f.marks f.must)
        f.records trail.now
        ≡ undid result route.new sets.new }
{
    let stops = f.stops;
    let mut next = [0u8; Node::MOST];
    let mut last = [0u8; Node::MOST];
    neighbours(&mut next, &mut last, route, stops);
    let begun = Undone {
        fits: true,
        stops,
        marks: f.marks,
        must: f.must,
        legs: word(route, stops - 1),
    };
    let u = undo_from(&mut next, &mut last, sets, begun, n, f.records, base, trail);
    cut_sets(sets, n, u.legs);
    walk(route, &next, u.stops, stops);
    u
}
