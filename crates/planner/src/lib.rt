// The planner's five entry points. Each is total: any bytes, any fleet, any trail, any numbers.
#![tactic(auto)]

ghost use Rattle.std.specs.Prelude.{◌≡◌, ◌<◌, List, ℕ};
ghost use Rattle.laws.specs.Basic.{all_below};
ghost use Rattle.sheet.specs.Section.{vans_of};
ghost use Rattle.sheet.specs.Place.{Laid};
ghost use Rattle.rules.specs.Refused.{number_in};
ghost use Rattle.day.specs.Refuse.{call_refusal};
ghost use Rattle.day.specs.Tell.{job_in};
ghost use Rattle.along.specs.Nodes.{ByNode};
ghost use Rattle.fleet.specs.Fleet.{HeldAll};
ghost use Rattle.fleet.specs.Rows.{fleet_with, Rows, Figured, ReadyAll};
ghost use Rattle.turns.specs.Together.{ran_all};
ghost use Rattle.acts.specs.Known.{KnownRows};
ghost use Rattle.planner.specs.Asked.{Sized, DidWhole, lives};
ghost use Rattle.planner.specs.Face.{ask_refusal, step_of, Opens, Sections, Stepping, Counts, Judges};

use acts::act;
use along::nodes::{Jobs, by_node};
use board::{Figures, State};
use fleet::form::{form_ok, within_room};
use fleet::rows::{figures_in, fleet_of, pack, take_figures, take_levels, take_routes, take_sets};
use fleet::wards::{places, served};
use fleet::{Fleet, first_van};
use rules::{Node, Refusal, Step};
use sheet::Layout;

// Opens a sheet: the fresh fleet, or why it is refused.
pub fn open(sheet: &[u8]) -> Result<Fleet, Refusal>
    ensures { Opens sheet.now result }
{
    let laid = day::opening(sheet)?;
    if laid.vans == 1 {
        return Ok(Fleet::of_one(first_van(sheet, laid)));
    }
    Ok(Fleet::fresh(sheet, laid))
}

// The stretch of the sheet that holds a section's entries.
pub fn section(sheet: &[u8], number: usize) -> &[u8]
    ensures { Sections sheet.entry.ref_ptr sheet.now number (result.ref_ptr, result.now) }
{
    day::section(sheet, number)
}

// Whether a call on a fleet in rows is refused for its form, the trail's room apart, on a sheet that no call refuses.
fn asked<'a>(
    at: Layout,
    routes: &'a [[usize; Node::MOST]; Fleet::VANS],
    sets: &'a [[u64; Node::MOST]; Fleet::VANS],
    levels: &'a [[usize; State::LEVELS]; Fleet::VANS],
    figures: &'a [[u64; Figures::COUNT]; Fleet::VANS],
) -> Result<(), Refusal>
    requires { Sized at × Rows routes.now × Rows sets.now × Figured figures.now }
    ensures { (sheet : List ℕ) → call_refusal sheet ≡ 0 → Laid sheet at
        → number_in result ≡ ask_refusal sheet (fleet_with routes.now sets.now levels.now figures.now) }
{
    if form_ok(routes, sets, levels, figures, at.nodes, at.vans) {
        Ok(())
    } else {
        Err(Refusal::Form)
    }
}

// Stepping back in several vans, which may find a record that does not fit when some of them are back already: then the rows are put back.
fn back_or_stay(
    sheet: &[u8],
    at: Layout,
    routes: &mut [[usize; Node::MOST]; Fleet::VANS],
    sets: &mut [[u64; Node::MOST]; Fleet::VANS],
    levels: &mut [[usize; State::LEVELS]; Fleet::VANS],
    figures: &mut [[u64; Figures::COUNT]; Fleet::VANS],
    trail: &mut [u64],
    step: Step,
) -> Result<usize, Refusal>
    requires { KnownRows sheet.now at routes.old sets.old levels.old figures.old trail.old }
    ensures { DidWhole sheet.now
        (fleet_with routes.old sets.old levels.old figures.old) trail.old step
        result routes.new sets.new levels.new figures.new trail.new }
{
    let old_routes = *routes;
    let old_sets = *sets;
    let old_levels = *levels;
    let old_figures = *figures;
    match act(sheet, at, routes, sets, levels, figures, trail, step) {
        Err(Refusal::Misfit) => {
            *routes = old_routes;
            *sets = old_sets;
            *levels = old_levels;
            *figures = old_figures;
            Err(Refusal::Misfit)
        },
        answer => answer,
    }
}

// A step that nothing refuses as a call, done or refused whole.
fn act_whole(
    sheet: &[u8],
    at: Layout,
    routes: &mut [[usize; Node::MOST]; Fleet::VANS],
    sets: &mut [[u64; Node::MOST]; Fleet::VANS],
    levels: &mut [[usize; State::LEVELS]; Fleet::VANS],
    figures: &mut [[u64; Figures::COUNT]; Fleet::VANS],
    trail: &mut [u64],
    step: Step,
) -> Result<usize, Refusal>
    requires { KnownRows sheet.now at routes.old sets.old levels.old figures.old trail.old }
    ensures { DidWhole sheet.now
        (fleet_with routes.old sets.old levels.old figures.old) trail.old step
        result routes.new sets.new levels.new figures.new trail.new }
{
    if (step.kind == Step::BACK) & (1 < at.vans) {
        return back_or_stay(sheet, at, routes, sets, levels, figures, trail, step);
    }
    act(sheet, at, routes, sets, levels, figures, trail, step)
}

// A step in rows, on a sheet that no call refuses: refused for the fleet's form or its records, or else what it gives.
fn turn(
    sheet: &[u8],
    at: Layout,
    routes: &mut [[usize; Node::MOST]; Fleet::VANS],
    sets: &mut [[u64; Node::MOST]; Fleet::VANS],
    levels: &mut [[usize; State::LEVELS]; Fleet::VANS],
    figures: &mut [[u64; Figures::COUNT]; Fleet::VANS],
    trail: &mut [u64],
    word: usize,
    first: usize,
    second: usize,
) -> Result<usize, Refusal>
    requires { (call_refusal sheet.now ≡ 0) × Laid sheet.now at × HeldAll (fleet_with routes.old sets.old levels.old figures.old)
        × Rows routes.old × Rows sets.old × Rows levels.old × Figured figures.old }
    ensures { (step_of sheet.now
        (fleet_with routes.old sets.old levels.old figures.old) trail.old word first second
        ≡ ran_all result routes.new sets.new levels.new figures.new trail.new) × Figured figures.new }
{
    asked(at, routes, sets, levels, figures)?;
    let room = trail.len() / at.vans / 2;
    if !within_room(figures, at.vans, room) {
        return Err(Refusal::Form);
    }
    let said = Step::said(word, first, second);
    act_whole(sheet, at, routes, sets, levels, figures, trail, said)
}

// What a step gives: how many rounds of settling struck something, or why it is refused; and the fleet after it, which a refusal leaves as it was.
#[derive(Clone, Copy)]
pub struct Stepped {
    pub answer: Result<usize, Refusal>,
    pub fleet: Fleet,
}

// One step: its outcome, and the trail. The fleet is taken into rows and changed there; of a fleet of one van the van alone is put back. On a sheet that is
// refused it comes out of its rows too: the fleet itself, once it is read, costs every step a copy more.
pub fn step(
    sheet: &[u8],
    fleet: Fleet,
    trail: &mut [u64],
    word: usize,
    first: usize,
    second: usize,
) -> Stepped
    ensures { Stepping sheet.now fleet trail.old word first second (result.answer, result.fleet, trail.new) }
{
    let mut routes = [[0usize; Node::MOST]; Fleet::VANS];
    let mut sets = [[0u64; Node::MOST]; Fleet::VANS];
    let mut levels = [[0usize; State::LEVELS]; Fleet::VANS];
    let mut figures = [[0u64; Figures::COUNT]; Fleet::VANS];
    take_routes(fleet, &mut routes);
    take_sets(fleet, &mut sets);
    take_levels(fleet, &mut levels);
    take_figures(fleet, &mut figures);
    let at = match day::checked(sheet) {
        Ok(at) => at,
        Err(e) => {
            let answer = Err(Refusal::from(e));
            let fleet = fleet_of(&routes, &sets, &levels, &figures);
            return Stepped { answer, fleet };
        },
    };
    let answer = turn(
        sheet,
        at,
        &mut routes,
        &mut sets,
        &mut levels,
        &mut figures,
        trail,
        word,
        first,
        second,
    );
    if answer.is_ok() & (at.vans == 1) {
        return Stepped {
            answer,
            fleet: Fleet::of_one(pack(&routes[0], &sets[0], &levels[0], &figures[0])),
        };
    }
    Stepped {
        answer,
        fleet: fleet_of(&routes, &sets, &levels, &figures),
    }
}

// The open places of a fleet in all.
pub fn open_places(sheet: &[u8], fleet: Fleet) -> Result<usize, Refusal>
    ensures { Counts sheet.now fleet result }
{
    let laid = day::checked(sheet)?;
    let mut routes = [[0usize; Node::MOST]; Fleet::VANS];
    let mut sets = [[0u64; Node::MOST]; Fleet::VANS];
    let mut levels = [[0usize; State::LEVELS]; Fleet::VANS];
    let mut figures = [[0u64; Figures::COUNT]; Fleet::VANS];
    take_routes(fleet, &mut routes);
    take_sets(fleet, &mut sets);
    take_levels(fleet, &mut levels);
    take_figures(fleet, &mut figures);
    asked(laid, &routes, &sets, &levels, &figures)?;
    Ok(places(&sets, laid.nodes, laid.vans))
}

// Whether van j is alive; `jobs` has the jobs of the sheet by node.
fn alive_at<'a>(
    sheet: &[u8],
    at: Layout,
    jobs: &[u32; Jobs::ROOM],
    routes: &'a [[usize; Node::MOST]; Fleet::VANS],
    sets: &'a [[u64; Node::MOST]; Fleet::VANS],
    figures: &'a [[u64; Figures::COUNT]; Fleet::VANS],
    j: usize,
) -> bool
    requires { ReadyAll sheet.now at routes.now sets.now figures.now × ByNode (job_in sheet.now) at.jobs jobs.now × (j < at.vans) }
    ensures { (levels : List (List ℕ)) → result
        ≡ lives sheet.now (fleet_with routes.now sets.now levels figures.now) j }
{
    let van = day::look::van(sheet, at, j);
    let f = figures_in(&figures[j]);
    van::alive(sheet, at, jobs, van, &routes[j], &sets[j], f)
}

// Whether every van is.
fn all_alive<'a>(
    sheet: &[u8],
    at: Layout,
    jobs: &[u32; Jobs::ROOM],
    routes: &'a [[usize; Node::MOST]; Fleet::VANS],
    sets: &'a [[u64; Node::MOST]; Fleet::VANS],
    figures: &'a [[u64; Figures::COUNT]; Fleet::VANS],
) -> bool
    requires { ReadyAll sheet.now at routes.now sets.now figures.now × ByNode (job_in sheet.now) at.jobs jobs.now }
    ensures { (levels : List (List ℕ)) → result ≡ all_below (vans_of sheet.now)
        (lives sheet.now (fleet_with routes.now sets.now levels figures.now)) }
{
    (0..at.vans).all(|j| alive_at(sheet, at, jobs, routes, sets, figures, j))
}

// The verdict of a fleet: whether it is alive.
pub fn verdict(sheet: &[u8], fleet: Fleet) -> Result<bool, Refusal>
    ensures { Judges sheet.now fleet result }
{
    let laid = day::checked(sheet)?;
    let mut routes = [[0usize; Node::MOST]; Fleet::VANS];
    let mut sets = [[0u64; Node::MOST]; Fleet::VANS];
    let mut levels = [[0usize; State::LEVELS]; Fleet::VANS];
    let mut figures = [[0u64; Figures::COUNT]; Fleet::VANS];
    take_routes(fleet, &mut routes);
    take_sets(fleet, &mut sets);
    take_levels(fleet, &mut levels);
    take_figures(fleet, &mut figures);
    asked(laid, &routes, &sets, &levels, &figures)?;
    let mut jobs = [0u32; Jobs::ROOM];
    by_node(sheet, laid, &mut jobs);
    if !all_alive(sheet, laid, &jobs, &routes, &sets, &figures) {
        return Ok(false);
    }
    Ok(served(&routes, &sets, &figures, laid.vans))
}
