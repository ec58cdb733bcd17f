// When a state is in form.
ghost use Rattle.std.specs.Prelude.{◌≡◌, ℕ, ◌-◌, ◌≤◌, ◌<◌, length, get_or};
ghost use Rattle.laws.specs.Basic.{all_below};
ghost use Rattle.bits.specs.Places.{without};
ghost use Rattle.rules.specs.Day.{is_inner};
ghost use Rattle.board.specs.Board.{leg_node, board, state_with};
ghost use Rattle.board.specs.Form.{only_inner, board_ok, levels_ok, in_form};
ghost use Rattle.board.specs.Tests.{zero_from, seen_of, set_test, stop_shut};

use crate::{Figures, State};
use rules::Node;

// Whether x is between 1 and n - 2.
#[tactic(auto, unfolding(rules::specs::Day::is_inner))]
pub fn inner(n: usize, x: usize) -> bool
    ensures { result ≡ is_inner n x }
{
    1 <= x && x < n && x + 1 < n
}

// Whether p is between 0 and n - 2.
#[tactic(auto, unfolding(crate::specs::Board::leg_node))]
pub fn leg_node(n: usize, p: usize) -> bool
    ensures { result ≡ leg_node n p }
{
    p < n && p + 1 < n
}

// Whether every entry from `from` on is 0.
fn none_from(a: &[usize; Node::MOST], from: usize) -> bool
    requires { from ≤ 64 }
    ensures { result ≡ all_below 64 (zero_from from a.now) }
{
    let mut rest = 0;
    for i in from..Node::MOST {
        rest |= a[i];
    }
    rest == 0
}

// The first `stops` entries as a set, or 0 where one of them is no node below n or stands there twice.
fn seen_of(route: &[usize; Node::MOST], stops: usize, n: usize) -> u64
    requires { (n ≤ 64) × (stops ≤ 64) × (length route.now ≡ 64) }
    ensures { result ≡ seen_of n stops route.now }
{
    let mut seen: u64 = 0;
    for i in 0..stops {
        let e = route[i];
        if n <= e {
            return 0;
        }
        if bits::holds(seen, e) {
            return 0;
        }
        seen = bits::put(seen, e);
    }
    seen
}

// The sets, of nodes on and off the route alike: those between the ends are gathered with no choice among them, for speed, and held against the
// legs once. `on` are the nodes of the route.
fn sets_ok(sets: &[u64; Node::MOST], n: usize, on: u64) -> bool
    requires { (2 ≤ n) × (n ≤ 64) }
    ensures { result ≡ all_below 64 (set_test n sets.now (without on (n - 1))) }
{
    let end = n - 1;
    let mut places: u64 = 0;
    for y in 1..end {
        places |= sets[y];
    }
    let mut over = sets[0];
    for y in end..Node::MOST {
        over |= sets[y];
    }
    let legs = bits::take(on, end);
    bits::within(places, legs) & (over == 0)
}

// No node of the route has a place open.
fn stops_shut<'a>(route: &'a [usize; Node::MOST], stops: usize, sets: &'a [u64; Node::MOST]) -> bool
    requires { (stops ≤ 64) × ((i : ℕ) → i < stops → get_or route.now i 0 < 64) }
    ensures { result ≡ all_below stops (stop_shut route.now sets.now) }
{
    let mut places: u64 = 0;
    for i in 0..stops {
        let x = route[i];
        places |= sets[x];
    }
    places == 0
}

// No mark at node 0 or from the last node on; asked of the marks of either sort.
fn marks_ok(marks: u64, n: usize) -> bool
    requires { (2 ≤ n) × (n ≤ 64) }
    ensures { result ≡ all_below 64 (only_inner n marks) }
{
    (marks >> (n - 1) == 0) & (marks % 2 == 0)
}

fn levels_ok(levels: &[usize; State::LEVELS], depth: usize, records: usize) -> bool
    ensures { result ≡ levels_ok depth records levels.now }
{
    if State::LEVELS < depth {
        return false;
    }
    let mut u = 0;
    for i in 0..depth {
        let v = levels[i];
        if v < u {
            return false;
        }
        u = v;
    }
    u <= records && none_from(levels, depth)
}

fn board_ok<'a>(
    route: &'a [usize; Node::MOST],
    stops: usize,
    sets: &'a [u64; Node::MOST],
    marks: u64,
    must: u64,
    n: usize,
) -> bool
    requires { (n ≤ 64) × (length route.now ≡ 64) }
    ensures { result ≡ board_ok n (board route.now stops sets.now marks must) }
{
    if stops < 2 {
        return false;
    }
    if n < stops {
        return false;
    }
    if route[0] != 0 {
        return false;
    }
    if route[stops - 1] != n - 1 {
        return false;
    }
    let on = seen_of(route, stops, n);
    if on == 0 {
        return false;
    }
    if !none_from(route, stops) {
        return false;
    }
    (stops_shut(route, stops, sets) & sets_ok(sets, n, on))
        & (marks_ok(marks, n) & marks_ok(must, n))
}

// Whether the state of these arrays and numbers is in form, the record count's room apart.
#[tactic(auto, unfolding(crate::specs::Form::in_form))]
pub fn in_form<'a>(
    route: &'a [usize; Node::MOST],
    sets: &'a [u64; Node::MOST],
    levels: &'a [usize; State::LEVELS],
    f: Figures,
    n: usize,
) -> bool
    requires { (n ≤ 64) × (length route.now ≡ 64) }
    ensures { result ≡ in_form n (state_with route.now sets.now levels.now f) }
{
    board_ok(route, f.stops, sets, f.marks, f.must, n) && levels_ok(levels, f.depth, f.records)
}
