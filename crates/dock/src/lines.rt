// The lines of the steps, the routes at the end, and the whole listing.
ghost use Rattle.std.specs.Prelude.{◌≡◌, cond, List, [], ℕ, ◌+◌, ◌*◌, ◌<◌, ◌≤◌, length, get_or, replicate};
ghost use Rattle.rules.specs.Numbers.{most_vans};
ghost use Rattle.rules.specs.Refused.{number_in};
ghost use Rattle.sheet.specs.Place.{Laid};
ghost use Rattle.day.specs.Refuse.{call_refusal};
ghost use Rattle.day.specs.Tell.{job_in, step_word};
ghost use Rattle.along.specs.Nodes.{ByNode};
ghost use Rattle.listing.specs.Put.{Put};
ghost use Rattle.listing.specs.Text.{step_line};
ghost use Rattle.trail.specs.Steps.{rounds_of};
ghost use Rattle.fleet.specs.Rows.{figures_in, fleet_with, Rows, Figured, Blank};
ghost use Rattle.turns.specs.Together.{ran_all};
ghost use Rattle.planner.specs.Face.{fresh_of, step_of};
ghost use Rattle.dock.specs.Listing.{Reached, come_to, lines_of, routes_of, whole_of, listing_of};

use along::nodes::{Jobs, by_node};
use board::{Figures, State};
use day::classes::read_classes;
use fleet::rows::{figures_in, unpack};
use fleet::{Fleet, fresh_van};
use listing::{Three, put_refused, put_route, put_step};
use rules::{Node, Refusal, Step};
use sheet::Layout;
use telling::{Sums, Told, Way, one_if, stale, sums_now, tell_vans};

// The sheet's i-th step, from 0, on a fleet that was reached from the fresh one: neither sheet nor fleet is asked again, and no undoing is refused.
// Settling uses the jobs by node that the listing has.
pub fn step_at(
    sheet: &[u8],
    at: Layout,
    jobs: &[u32; Jobs::ROOM],
    i: usize,
    routes: &mut [[usize; Node::MOST]; Fleet::VANS],
    sets: &mut [[u64; Node::MOST]; Fleet::VANS],
    levels: &mut [[usize; State::LEVELS]; Fleet::VANS],
    figures: &mut [[u64; Figures::COUNT]; Fleet::VANS],
    trail: &mut [u64],
) -> Result<usize, Refusal>
    requires sheet_value { (call_refusal sheet.now ≡ 0) × Laid sheet.now at × (i < at.steps) × ByNode (job_in sheet.now) at.jobs jobs.now }
    requires rows { Rows routes.old × Rows sets.old × Rows levels.old × Figured figures.old }
    requires reached { Reached sheet.now (fleet_with routes.old sets.old levels.old figures.old) trail.old }
    ensures i_value { step_of sheet.now
        (fleet_with routes.old sets.old levels.old figures.old) trail.old
        (step_word sheet.now i 0) (step_word sheet.now i 1) (step_word sheet.now i 2)
        ≡ ran_all result routes.new sets.new levels.new figures.new trail.new }
    ensures rows_2 { Rows routes.new × Rows sets.new × Rows levels.new × Figured figures.new }
{
    let step = day::look::step(sheet, at, i);
    if step.kind == Step::SETTLE {
        return acts::settle(sheet, at, jobs, routes, sets, levels, figures, trail, step);
    }
    acts::act(sheet, at, routes, sets, levels, figures, trail, step)
}

// The line of the i-th step, from 0: refused it has the number, done the rounds.
fn put_line(
    out: &mut [u8],
    used: usize,
    i: usize,
    answer: Result<usize, Refusal>,
    sums: Sums,
) -> usize
    requires { (i < 2000) × (used + 200 ≤ length out.old) }
    ensures { Put out.old used
        (step_line (i + 1) (number_in answer) sums.places sums.records (rounds_of answer) (cond sums.alive 1 0)) result out.new }
{
    let (number, rounds) = match answer {
        Ok(rounds) => (0, rounds),
        Err(e) => (e.number(), 0),
    };
    let head = Three {
        first: (i + 1) as u64,
        second: number as u64,
        third: sums.places as u64,
    };
    let tail = Three {
        first: sums.records as u64,
        second: rounds as u64,
        third: one_if(sums.alive) as u64,
    };
    put_step(out, used, head, tail)
}

// The lines of all steps, from the fresh fleet on. After a step in which no van's records changed nothing is told anew.
fn put_lines(
    sheet: &[u8],
    at: Layout,
    jobs: &[u32; Jobs::ROOM],
    routes: &mut [[usize; Node::MOST]; Fleet::VANS],
    sets: &mut [[u64; Node::MOST]; Fleet::VANS],
    levels: &mut [[usize; State::LEVELS]; Fleet::VANS],
    figures: &mut [[u64; Figures::COUNT]; Fleet::VANS],
    trail: &mut [u64],
    out: &mut [u8],
) -> usize
    requires sheet_value { (call_refusal sheet.now ≡ 0) × Laid sheet.now at × (200 * at.steps ≤ length out.old)
        × ByNode (job_in sheet.now) at.jobs jobs.now }
    requires rows { Rows routes.old × Rows sets.old × Rows levels.old × Figured figures.old }
    requires figures_value { fleet_with routes.old sets.old levels.old figures.old ≡ fresh_of sheet.now }
    ensures { Put out.old 0 (lines_of sheet.now trail.old at.steps) result out.new
        × (come_to sheet.now trail.old at.steps
        ≡ (fleet_with routes.new sets.new levels.new figures.new, trail.new))
        × (result ≤ 200 * at.steps) × Rows routes.new × Figured figures.new }
{
    let mut told = [[0usize; Told::COUNT]; Fleet::VANS];
    let mut ways = [[0u64; Way::COUNT]; Fleet::VANS];
    tell_vans(
        sheet, at, jobs, routes, sets, figures, true, &mut told, &mut ways,
    );
    let mut sums = sums_now(&told, routes, sets, figures, at.vans);
    let mut used = 0;
    for i in 0..at.steps {
        let answer = step_at(sheet, at, jobs, i, routes, sets, levels, figures, trail);
        if stale(figures, &told, at.vans) {
            tell_vans(
                sheet, at, jobs, routes, sets, figures, false, &mut told, &mut ways,
            );
            sums = sums_now(&told, routes, sets, figures, at.vans);
        }
        used = put_line(out, used, i, answer, sums);
    }
    used
}

// A route line for each van.
fn put_routes<'a>(
    out: &mut [u8],
    used: usize,
    routes: &'a [[usize; Node::MOST]; Fleet::VANS],
    figures: &'a [[u64; Figures::COUNT]; Fleet::VANS],
    v: usize,
) -> usize
    requires { (v ≤ most_vans) × (used + 1350 * v ≤ length out.old) × Rows routes.now × Figured figures.now
        × ((j : ℕ) → j < v → (figures_in (get_or figures.now j [])).stops ≤ 64) }
    ensures { (result ≤ used + 1350 * v) × ((sets levels : List (List ℕ)) →
        Put out.old used (routes_of v (fleet_with routes.now sets levels figures.now)) result out.new) }
{
    let mut next = used;
    for j in 0..v {
        let f = figures_in(&figures[j]);
        next = put_route(out, next, &routes[j], f.stops);
    }
    next
}

// The fresh fleet, put into rows that hold nothing but zeros.
fn fresh_rows(
    sheet: &[u8],
    at: Layout,
    routes: &mut [[usize; Node::MOST]; Fleet::VANS],
    sets: &mut [[u64; Node::MOST]; Fleet::VANS],
    levels: &mut [[usize; State::LEVELS]; Fleet::VANS],
    figures: &mut [[u64; Figures::COUNT]; Fleet::VANS],
)
    requires { (call_refusal sheet.now ≡ 0) × Laid sheet.now at × Blank routes.old × Blank sets.old × Blank levels.old
        × (figures.old ≡ replicate most_vans (replicate 5 0)) }
    ensures figures_after { fleet_with routes.new sets.new levels.new figures.new ≡ fresh_of sheet.now }
    ensures rows { Rows routes.new × Rows sets.new × Rows levels.new × Figured figures.new }
{
    let mut classes = [0u32; Node::MOST];
    read_classes(sheet, at, &mut classes);
    for j in 0..at.vans {
        let one = fresh_van(sheet, at, &classes, j);
        unpack(
            one,
            &mut routes[j],
            &mut sets[j],
            &mut levels[j],
            &mut figures[j],
        );
    }
}

// The lines of the steps from the fresh fleet on, then the routes.
fn put_all(sheet: &[u8], at: Layout, trail: &mut [u64], out: &mut [u8]) -> usize
    requires { (call_refusal sheet.now ≡ 0) × Laid sheet.now at × (410800 ≤ length out.old) }
    ensures { Put out.old 0 (whole_of sheet.now trail.old) result out.new × (result ≤ 410800) }
{
    let mut routes = [[0usize; Node::MOST]; Fleet::VANS];
    let mut sets = [[0u64; Node::MOST]; Fleet::VANS];
    let mut levels = [[0usize; State::LEVELS]; Fleet::VANS];
    let mut figures = [[0u64; Figures::COUNT]; Fleet::VANS];
    fresh_rows(sheet, at, &mut routes, &mut sets, &mut levels, &mut figures);
    let mut jobs = [0u32; Jobs::ROOM];
    by_node(sheet, at, &mut jobs);
    let used = put_lines(
        sheet,
        at,
        &jobs,
        &mut routes,
        &mut sets,
        &mut levels,
        &mut figures,
        trail,
        out,
    );
    put_routes(out, used, &routes, &figures, at.vans)
}

// The whole listing of a sheet, into a buffer with room for the longest; the answer is its length.
pub fn list(sheet: &[u8], trail: &mut [u64], out: &mut [u8]) -> usize
    requires { 410800 ≤ length out.old }
    ensures { Put out.old 0 (listing_of sheet.now trail.old) result out.new × (result ≤ 410800) }
{
    match day::opening(sheet) {
        Ok(at) => put_all(sheet, at, trail, out),
        Err(e) => put_refused(out, 0, e.why.number() as u64),
    }
}
