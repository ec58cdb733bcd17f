// When a fleet is in form.
ghost use Rattle.std.specs.Prelude.{◌≡◌, ◌&&◌, List, ℕ, ◌<◌, ◌≤◌, length, leb};
ghost use Rattle.laws.specs.Basic.{all_below};
ghost use Rattle.rules.specs.Numbers.{most_vans};
ghost use Rattle.board.specs.Board.{state_with};
ghost use Rattle.fleet.specs.Fleet.{state_in};
ghost use Rattle.fleet.specs.Form.{van_ok, van_fits, idle, others_idle, shares_none, in_form_all};
ghost use Rattle.fleet.specs.Rows.{fleet_with, Rows, Figured};
ghost use Rattle.fleet.specs.Wards.{JoinsVan};

use crate::Fleet;
use crate::rows::figures_in;
use crate::wards::{Wards, with_van};
use board::form::in_form;
use board::{Figures, State};
use rules::Node;

// Every number of a state 0: gathered in one word, with no exit inside.
fn is_idle<'a>(
    route: &'a [usize; Node::MOST],
    sets: &'a [u64; Node::MOST],
    levels: &'a [usize; State::LEVELS],
    f: Figures,
) -> bool
    ensures { result ≡ idle (state_with route.now sets.now levels.now f) }
{
    let mut all = (f.stops | f.depth | f.records) as u64 | f.marks | f.must;
    for i in 0..Node::MOST {
        all |= (route[i] | levels[i]) as u64 | sets[i];
    }
    all == 0
}

// What is no van, the states behind the v vans, is idle.
fn others_idle<'a>(
    routes: &'a [[usize; Node::MOST]; Fleet::VANS],
    sets: &'a [[u64; Node::MOST]; Fleet::VANS],
    levels: &'a [[usize; State::LEVELS]; Fleet::VANS],
    figures: &'a [[u64; Figures::COUNT]; Fleet::VANS],
    v: usize,
) -> bool
    requires { (v ≤ most_vans) × Figured figures.now }
    ensures { result ≡ others_idle v (fleet_with routes.now sets.now levels.now figures.now) }
{
    let mut idle = true;
    for j in v..Fleet::VANS {
        let f = figures_in(&figures[j]);
        idle &= is_idle(&routes[j], &sets[j], &levels[j], f);
    }
    idle
}

// One van, where the first has so many levels and `first` says whether this is it.
fn van_ok<'a>(
    route: &'a [usize; Node::MOST],
    sets: &'a [u64; Node::MOST],
    levels: &'a [usize; State::LEVELS],
    f: Figures,
    n: usize,
    depth: usize,
    first: bool,
) -> bool
    requires { (n ≤ 64) × (length route.now ≡ 64) }
    ensures { result ≡ van_fits n (state_with route.now sets.now levels.now f) depth first }
{
    if f.depth != depth {
        return false;
    }
    if !(first | (f.must == 0)) {
        return false;
    }
    in_form(route, sets, levels, f, n)
}

// One van more of a fleet, to those whose wards are given: in form, and apart from them; `only` says that it has no other to be apart from.
fn join_van<'a>(
    wards: Wards,
    route: &'a [usize; Node::MOST],
    sets: &'a [u64; Node::MOST],
    levels: &'a [usize; State::LEVELS],
    f: Figures,
    n: usize,
    depth: usize,
    first: bool,
    only: bool,
) -> Wards
    requires { (2 ≤ n) × (n ≤ 64) × (length route.now ≡ 64) × (length sets.now ≡ 64) }
    ensures { JoinsVan n wards (state_with route.now sets.now levels.now f) depth first only result }
{
    if !van_ok(route, sets, levels, f, n, depth, first) {
        return Wards {
            placed: 0,
            reached: 0,
            apart: false,
        };
    }
    if only {
        return wards;
    }
    with_van(wards, route, sets, f.stops, n)
}

// The vans, in rows, and the rule between them.
fn vans_ok<'a>(
    routes: &'a [[usize; Node::MOST]; Fleet::VANS],
    sets: &'a [[u64; Node::MOST]; Fleet::VANS],
    levels: &'a [[usize; State::LEVELS]; Fleet::VANS],
    figures: &'a [[u64; Figures::COUNT]; Fleet::VANS],
    n: usize,
    v: usize,
) -> bool
    requires { (v ≤ most_vans) × (1 ≤ v) × (2 ≤ n) × (n ≤ 64) × Rows routes.now × Rows sets.now × Figured figures.now }
    ensures { result ≡ all_below v (van_ok n (fleet_with routes.now sets.now levels.now figures.now))
        && shares_none n v (fleet_with routes.now sets.now levels.now figures.now) }
{
    let one = figures_in(&figures[0]);
    let depth = one.depth;
    let mut wards = Wards::none();
    for j in 0..v {
        let f = figures_in(&figures[j]);
        wards = join_van(
            wards,
            &routes[j],
            &sets[j],
            &levels[j],
            f,
            n,
            depth,
            j == 0,
            v == 1,
        );
    }
    wards.apart
}

// Whether a fleet in rows is in form, where no trail is lent.
pub fn form_ok<'a>(
    routes: &'a [[usize; Node::MOST]; Fleet::VANS],
    sets: &'a [[u64; Node::MOST]; Fleet::VANS],
    levels: &'a [[usize; State::LEVELS]; Fleet::VANS],
    figures: &'a [[u64; Figures::COUNT]; Fleet::VANS],
    n: usize,
    v: usize,
) -> bool
    requires { (v ≤ most_vans) × (1 ≤ v) × (2 ≤ n) × (n ≤ 64) × Rows routes.now × Rows sets.now × Figured figures.now }
    ensures { result ≡ in_form_all n v (fleet_with routes.now sets.now levels.now figures.now) }
{
    others_idle(routes, sets, levels, figures, v) & vans_ok(routes, sets, levels, figures, n, v)
}

// No van has more records than its part of the trail has room for.
pub fn within_room(figures: &[[u64; Figures::COUNT]; Fleet::VANS], v: usize, room: usize) -> bool
    requires { (v ≤ most_vans) × Figured figures.now }
    ensures { (routes sets levels : List (List ℕ))
        → result ≡ all_below v (λ j. leb (state_in (fleet_with routes sets levels figures.now) j).records room) }
{
    (0..v).all(|j| figures_in(&figures[j]).records <= room)
}
