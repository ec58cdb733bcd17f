// What the vans have of the wards, each a word: those on a route, those on a route or open, and those that are neither; whether those that must go
// somewhere can; and the open places in all.
ghost use Rattle.std.specs.Prelude.{◌≡◌, true, not, ◌&&◌, List, [], ℕ, ◌<◌, ◌≤◌, get_or, eqb, ltb};
ghost use Rattle.rules.specs.Numbers.{most_vans};
ghost use Rattle.bits.specs.Places.{has, minus, within};
ghost use Rattle.laws.specs.Basic.{sum_below};
ghost use Rattle.board.specs.Board.{board, places_of};
ghost use Rattle.fleet.specs.Form.{has_ward, shares_none};
ghost use Rattle.fleet.specs.Rows.{figures_in, fleet_with, Figured};
ghost use Rattle.fleet.specs.Sums.{all_served};
ghost use Rattle.fleet.specs.Wards.{Nodes, HasWards, AddsVan};

use crate::Fleet;
use crate::rows::figures_in;
use bits::Each;
use board::Figures;
use board::places::count;
use board::route::word;
use rules::Node;

// The wards on a route of some van, those that some van has on its route or open, and whether no ward on a route is on or open in another van.
#[derive(Clone, Copy)]
pub struct Wards {
    pub placed: u64,
    pub reached: u64,
    pub apart: bool,
}

// The nodes that have a place open.
fn open_wards(sets: &[u64; Node::MOST], n: usize) -> u64
    requires { n ≤ 64 }
    ensures { (y : ℕ) → has result y ≡ ltb y n && not (eqb (get_or sets.now y 0) 0) }
{
    let mut w: u64 = 0;
    for y in 0..n {
        if sets[y] != 0 {
            w = bits::put(w, y);
        }
    }
    w
}

// Whether two sets have no member in common.
fn apart(a: u64, b: u64) -> bool
    ensures { result ≡ within a (minus a b) }
{
    bits::within(a, bits::minus(a, b))
}

// One van more. The ends, which every route has, are left out.
pub fn with_van<'a>(
    wards: Wards,
    route: &'a [usize; Node::MOST],
    sets: &'a [u64; Node::MOST],
    stops: usize,
    n: usize,
) -> Wards
    requires { (2 ≤ n) × Nodes n stops route.now }
    ensures { AddsVan n wards (board route.now stops sets.now 0 0) result }
{
    let on = bits::take(bits::take(word(route, stops), 0), n - 1);
    let open = bits::take(bits::take(open_wards(sets, n), 0), n - 1);
    Wards {
        placed: bits::join(wards.placed, on),
        reached: bits::join(wards.reached, bits::join(on, open)),
        apart: wards.apart & apart(on, wards.reached) & apart(open, wards.placed),
    }
}

// The members of a set that a van has neither on its route nor open: its other wards are not looked at.
fn missed<'a>(
    members: u64,
    route: &'a [usize; Node::MOST],
    sets: &'a [u64; Node::MOST],
    stops: usize,
) -> u64
    requires { Nodes 64 stops route.now }
    ensures { (marks must y : ℕ) → y < 64
        → has result y ≡ has members y && not (has_ward (board route.now stops sets.now marks must) y) }
{
    let off = bits::minus(members, word(route, stops));
    let mut kept = off;
    for x in Each::of(off) {
        if sets[x] != 0 {
            kept = bits::take(kept, x);
        }
    }
    kept
}

impl Wards {
    // Of no van.
    pub fn none() -> Wards
        ensures { result ≡ record { placed = 0; reached = 0; apart = true } }
    {
        Wards {
            placed: 0,
            reached: 0,
            apart: true,
        }
    }
}

// The wards of v vans: one pass.
fn gather<'a>(
    routes: &'a [[usize; Node::MOST]; Fleet::VANS],
    sets: &'a [[u64; Node::MOST]; Fleet::VANS],
    figures: &'a [[u64; Figures::COUNT]; Fleet::VANS],
    n: usize,
    v: usize,
) -> Wards
    requires v_le_most_vans { (v ≤ most_vans) × (2 ≤ n) × Figured figures.now }
    requires by_index { (j : ℕ) → j < v → Nodes n (figures_in (get_or figures.now j [])).stops (get_or routes.now j []) }
    ensures { (levels : List (List ℕ)) → HasWards n v (fleet_with routes.now sets.now levels figures.now) result }
{
    let mut all = Wards::none();
    for j in 0..v {
        let f = figures_in(&figures[j]);
        all = with_van(all, &routes[j], &sets[j], f.stops, n);
    }
    all
}

// Whether no ward on a route is on or open in another van. One van alone has no other.
pub fn share_none<'a>(
    routes: &'a [[usize; Node::MOST]; Fleet::VANS],
    sets: &'a [[u64; Node::MOST]; Fleet::VANS],
    figures: &'a [[u64; Figures::COUNT]; Fleet::VANS],
    n: usize,
    v: usize,
) -> bool
    requires v_le_most_vans { (v ≤ most_vans) × (2 ≤ n) × Figured figures.now }
    requires by_index { (j : ℕ) → j < v → Nodes n (figures_in (get_or figures.now j [])).stops (get_or routes.now j []) }
    ensures { (levels : List (List ℕ)) → result ≡ shares_none n v (fleet_with routes.now sets.now levels figures.now) }
{
    if v == 1 {
        true
    } else {
        gather(routes, sets, figures, n, v).apart
    }
}

// Whether every ward that must go somewhere is placed or open in some van. Van by van, those are left that no van so far has.
pub fn served<'a>(
    routes: &'a [[usize; Node::MOST]; Fleet::VANS],
    sets: &'a [[u64; Node::MOST]; Fleet::VANS],
    figures: &'a [[u64; Figures::COUNT]; Fleet::VANS],
    v: usize,
) -> bool
    requires v_le_most_vans { (v ≤ most_vans) × Figured figures.now }
    requires by_index { (j : ℕ) → j < v → Nodes 64 (figures_in (get_or figures.now j [])).stops (get_or routes.now j []) }
    ensures { (levels : List (List ℕ)) → result ≡ all_served v (fleet_with routes.now sets.now levels figures.now) }
{
    let one = figures_in(&figures[0]);
    let mut left = one.must;
    for j in 0..v {
        if left == 0 {
            return true;
        }
        let f = figures_in(&figures[j]);
        left = missed(left, &routes[j], &sets[j], f.stops);
    }
    left == 0
}

// The open places of v vans in all.
pub fn places(sets: &[[u64; Node::MOST]; Fleet::VANS], n: usize, v: usize) -> usize
    requires { (v ≤ most_vans) × (n ≤ 64) }
    ensures { result ≡ sum_below v (λ j. places_of (get_or sets.now j []) n) }
{
    let mut all = 0;
    for j in 0..v {
        all += count(&sets[j], n);
    }
    all
}
