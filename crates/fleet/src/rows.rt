// A fleet in arrays, a row of each for every state: route, sets, levels, and its other numbers. A fleet goes in and out by value, each state of it once.
ghost use Rattle.std.specs.Prelude.{◌≡◌, length};
ghost use Rattle.rules.specs.Numbers.{most_vans};
ghost use Rattle.board.specs.Board.{state_with};
ghost use Rattle.fleet.specs.Rows.{figures_in, figures_of, row_of, fleet_with, routes_in, sets_in, levels_in, figures_all, Figured};

use crate::Fleet;
use board::{Figures, State};
use rules::Node;

// The numbers that a row has.
pub fn figures_in(row: &[u64; Figures::COUNT]) -> Figures
    requires { length row.now ≡ 5 }
    ensures { result ≡ figures_in row.now }
{
    Figures {
        stops: row[0] as usize,
        marks: row[1],
        must: row[2],
        depth: row[3] as usize,
        records: row[4] as usize,
    }
}

// The numbers of a state.
fn figures_of(s: State) -> Figures
    ensures { result ≡ figures_of s }
{
    Figures {
        stops: s.stops,
        marks: s.marks,
        must: s.must,
        depth: s.depth,
        records: s.records,
    }
}

// A row for these numbers.
pub fn put_figures(row: &mut [u64; Figures::COUNT], f: Figures)
    requires { length row.old ≡ 5 }
    ensures { row.new ≡ row_of f }
{
    row[0] = f.stops as u64;
    row[1] = f.marks;
    row[2] = f.must;
    row[3] = f.depth as u64;
    row[4] = f.records as u64;
}

// A state put into its rows.
pub fn unpack(
    s: State,
    route: &mut [usize; Node::MOST],
    sets: &mut [u64; Node::MOST],
    levels: &mut [usize; State::LEVELS],
    row: &mut [u64; Figures::COUNT],
)
    requires { length row.old ≡ 5 }
    ensures { (state_with route.new sets.new levels.new (figures_in row.new) ≡ s)
        × (length row.new ≡ 5) }
{
    let stops = s.route;
    let places = s.sets;
    let heights = s.levels;
    *route = stops;
    *sets = places;
    *levels = heights;
    put_figures(row, figures_of(s));
}

// The state that its rows have.
pub fn pack<'a>(
    route: &'a [usize; Node::MOST],
    sets: &'a [u64; Node::MOST],
    levels: &'a [usize; State::LEVELS],
    row: &'a [u64; Figures::COUNT],
) -> State
    requires { length row.now ≡ 5 }
    ensures { result ≡ state_with route.now sets.now levels.now (figures_in row.now) }
{
    let f = figures_in(row);
    let stops = *route;
    let places = *sets;
    let heights = *levels;
    State {
        route: stops,
        stops: f.stops,
        sets: places,
        marks: f.marks,
        must: f.must,
        levels: heights,
        depth: f.depth,
        records: f.records,
    }
}

// The routes of a fleet into their rows. Each array has a loop of its own: one as short as that the compiler writes out, and then it copies what was
// handed in straight into the rows.
pub fn take_routes(fleet: Fleet, rows: &mut [[usize; Node::MOST]; Fleet::VANS])
    requires { length rows.old ≡ most_vans }
    ensures { rows.new ≡ routes_in fleet }
{
    let vans = fleet.vans;
    for j in 0..Fleet::VANS {
        let s = vans[j];
        let one = s.route;
        rows[j] = one;
    }
}

// The sets likewise.
pub fn take_sets(fleet: Fleet, rows: &mut [[u64; Node::MOST]; Fleet::VANS])
    requires { length rows.old ≡ most_vans }
    ensures { rows.new ≡ sets_in fleet }
{
    let vans = fleet.vans;
    for j in 0..Fleet::VANS {
        let s = vans[j];
        let one = s.sets;
        rows[j] = one;
    }
}

// The levels likewise.
pub fn take_levels(fleet: Fleet, rows: &mut [[usize; State::LEVELS]; Fleet::VANS])
    requires { length rows.old ≡ most_vans }
    ensures { rows.new ≡ levels_in fleet }
{
    let vans = fleet.vans;
    for j in 0..Fleet::VANS {
        let s = vans[j];
        let one = s.levels;
        rows[j] = one;
    }
}

// The other numbers likewise.
pub fn take_figures(fleet: Fleet, rows: &mut [[u64; Figures::COUNT]; Fleet::VANS])
    requires { Figured rows.old }
    ensures { rows.new ≡ figures_all fleet }
{
    let vans = fleet.vans;
    for j in 0..Fleet::VANS {
        let s = vans[j];
        put_figures(&mut rows[j], figures_of(s));
    }
}

// The fleet that the rows have.
pub fn fleet_of<'a>(
    routes: &'a [[usize; Node::MOST]; Fleet::VANS],
    sets: &'a [[u64; Node::MOST]; Fleet::VANS],
    levels: &'a [[usize; State::LEVELS]; Fleet::VANS],
    figures: &'a [[u64; Figures::COUNT]; Fleet::VANS],
) -> Fleet
    requires { Figured figures.now }
    ensures { result ≡ fleet_with routes.now sets.now levels.now figures.now }
{
    let mut vans = [State::none(); Fleet::VANS];
    for j in 0..Fleet::VANS {
        vans[j] = pack(&routes[j], &sets[j], &levels[j], &figures[j]);
    }
    Fleet { vans }
}
