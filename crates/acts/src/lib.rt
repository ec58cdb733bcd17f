// The steps of a fleet in rows, on a sheet that no call refuses and a fleet in form, neither asked again. Every refusal is found before anything
// changes, but for a record that does not fit, which only undoing finds: refused, the rows and the trail are as before, unless undoing several vans met
// one.
#![tactic(auto)]

ghost use Rattle.std.specs.Prelude.{◌≡◌, ◌<◌};
ghost use Rattle.sheet.specs.Section.{vans_of};
ghost use Rattle.rules.specs.Numbers.{kinds};
ghost use Rattle.day.specs.Tell.{van_of, day_of, job_in};
ghost use Rattle.along.specs.Nodes.{ByNode};
ghost use Rattle.fleet.specs.Rows.{fleet_with};
ghost use Rattle.acts.specs.Act.{act_all, van_act};
ghost use Rattle.acts.specs.Known.{KnownRows, Did};

use along::nodes::{Jobs, by_node};
use bars::place_bar;
use board::{Figures, State};
use fleet::Fleet;
use fleet::rows::{figures_in, put_figures};
use fleet::wards::share_none;
use rules::{Node, Refusal, Step};
use settle::settling::none_open;
use sheet::Layout;
use trail::{after, rounds};
use turns::each::each;

// Step 1: place a ward in a van, and exclude it from all others.
fn place(
    sheet: &[u8],
    at: Layout,
    routes: &mut [[usize; Node::MOST]; Fleet::VANS],
    sets: &mut [[u64; Node::MOST]; Fleet::VANS],
    levels: &mut [[usize; State::LEVELS]; Fleet::VANS],
    figures: &mut [[u64; Figures::COUNT]; Fleet::VANS],
    trail: &mut [u64],
    step: Step,
) -> Result<usize, Refusal>
    requires { KnownRows sheet.now at routes.old sets.old levels.old figures.old trail.old
        × (step.kind ≡ kinds.PLACE) × (step.van < vans_of sheet.now) }
    ensures { Did step.kind at.vans (van_act (van_of sheet.now) (day_of sheet.now) (vans_of sheet.now)
        (fleet_with routes.old sets.old levels.old figures.old) trail.old step)
        result routes.new sets.new levels.new figures.new trail.new }
{
    let v = at.vans;
    let n = at.nodes;
    let share = trail.len() / v;
    place_bar(
        sheet,
        at,
        routes,
        sets,
        figures,
        share / 2,
        step.van,
        step.first,
        step.second,
    )?;
    each(n, v, share, routes, sets, levels, figures, trail, step);
    Ok(0)
}

// Steps 2 to 4: in one van.
fn alone(
    sheet: &[u8],
    at: Layout,
    routes: &mut [[usize; Node::MOST]; Fleet::VANS],
    sets: &mut [[u64; Node::MOST]; Fleet::VANS],
    levels: &mut [[usize; State::LEVELS]; Fleet::VANS],
    figures: &mut [[u64; Figures::COUNT]; Fleet::VANS],
    trail: &mut [u64],
    step: Step,
) -> Result<usize, Refusal>
    requires { KnownRows sheet.now at routes.old sets.old levels.old figures.old trail.old
        × (step.kind ≡ kinds.PLACE → ⊥) × (step.kind ≡ kinds.SETTLE → ⊥) × (step.van < vans_of sheet.now) }
    ensures { Did step.kind at.vans (van_act (van_of sheet.now) (day_of sheet.now) (vans_of sheet.now)
        (fleet_with routes.old sets.old levels.old figures.old) trail.old step)
        result routes.new sets.new levels.new figures.new trail.new }
{
    let i = step.van;
    let share = trail.len() / at.vans;
    let from = i * share;
    let end = from + share;
    let f = figures_in(&figures[i]);
    let o = van::change(
        sheet,
        at,
        &mut routes[i],
        &mut sets[i],
        &mut levels[i],
        f,
        &mut trail[from..end],
        step,
    );
    put_figures(&mut figures[i], after(f, &o));
    rounds(&o)
}

// Settling of the named van; `jobs` has the jobs of the sheet by node.
fn settle_van(
    sheet: &[u8],
    at: Layout,
    jobs: &[u32; Jobs::ROOM],
    routes: &mut [[usize; Node::MOST]; Fleet::VANS],
    sets: &mut [[u64; Node::MOST]; Fleet::VANS],
    levels: &mut [[usize; State::LEVELS]; Fleet::VANS],
    figures: &mut [[u64; Figures::COUNT]; Fleet::VANS],
    trail: &mut [u64],
    step: Step,
) -> Result<usize, Refusal>
    requires known_rows { KnownRows sheet.now at routes.old sets.old levels.old figures.old trail.old
        × (step.kind ≡ kinds.SETTLE) × (step.van < vans_of sheet.now) }
    requires by_node { ByNode (job_in sheet.now) at.jobs jobs.now }
    ensures { Did step.kind at.vans (van_act (van_of sheet.now) (day_of sheet.now) (vans_of sheet.now)
        (fleet_with routes.old sets.old levels.old figures.old) trail.old step)
        result routes.new sets.new levels.new figures.new trail.new }
{
    let i = step.van;
    let share = trail.len() / at.vans;
    let from = i * share;
    let end = from + share;
    let van = day::look::van(sheet, at, i);
    let f = figures_in(&figures[i]);
    let o = van::settle(
        sheet,
        at,
        jobs,
        van,
        &mut routes[i],
        &mut sets[i],
        &mut levels[i],
        f,
        &mut trail[from..end],
        step,
    );
    put_figures(&mut figures[i], after(f, &o));
    rounds(&o)
}

// Step 5: where the van has an open place, the jobs are put by node, and it settles.
fn settle_alone(
    sheet: &[u8],
    at: Layout,
    routes: &mut [[usize; Node::MOST]; Fleet::VANS],
    sets: &mut [[u64; Node::MOST]; Fleet::VANS],
    levels: &mut [[usize; State::LEVELS]; Fleet::VANS],
    figures: &mut [[u64; Figures::COUNT]; Fleet::VANS],
    trail: &mut [u64],
    step: Step,
) -> Result<usize, Refusal>
    requires { KnownRows sheet.now at routes.old sets.old levels.old figures.old trail.old
        × (step.kind ≡ kinds.SETTLE) × (step.van < vans_of sheet.now) }
    ensures { Did step.kind at.vans (van_act (van_of sheet.now) (day_of sheet.now) (vans_of sheet.now)
        (fleet_with routes.old sets.old levels.old figures.old) trail.old step)
        result routes.new sets.new levels.new figures.new trail.new }
{
    let i = step.van;
    if none_open(&sets[i], at.nodes) {
        return Ok(0);
    }
    let mut jobs = [0u32; Jobs::ROOM];
    by_node(sheet, at, &mut jobs);
    settle_van(sheet, at, &jobs, routes, sets, levels, figures, trail, step)
}

// Steps 1 to 5.
fn in_van(
    sheet: &[u8],
    at: Layout,
    routes: &mut [[usize; Node::MOST]; Fleet::VANS],
    sets: &mut [[u64; Node::MOST]; Fleet::VANS],
    levels: &mut [[usize; State::LEVELS]; Fleet::VANS],
    figures: &mut [[u64; Figures::COUNT]; Fleet::VANS],
    trail: &mut [u64],
    step: Step,
) -> Result<usize, Refusal>
    requires { KnownRows sheet.now at routes.old sets.old levels.old figures.old trail.old }
    ensures { Did step.kind at.vans (van_act (van_of sheet.now) (day_of sheet.now) (vans_of sheet.now)
        (fleet_with routes.old sets.old levels.old figures.old) trail.old step)
        result routes.new sets.new levels.new figures.new trail.new }
{
    if at.vans <= step.van {
        return Err(Refusal::Van);
    }
    if step.kind == Step::PLACE {
        return place(sheet, at, routes, sets, levels, figures, trail, step);
    }
    if step.kind == Step::SETTLE {
        return settle_alone(sheet, at, routes, sets, levels, figures, trail, step);
    }
    alone(sheet, at, routes, sets, levels, figures, trail, step)
}

// Step 5 for a caller that has the jobs of the sheet by node, and settles often.
pub fn settle(
    sheet: &[u8],
    at: Layout,
    jobs: &[u32; Jobs::ROOM],
    routes: &mut [[usize; Node::MOST]; Fleet::VANS],
    sets: &mut [[u64; Node::MOST]; Fleet::VANS],
    levels: &mut [[usize; State::LEVELS]; Fleet::VANS],
    figures: &mut [[u64; Figures::COUNT]; Fleet::VANS],
    trail: &mut [u64],
    step: Step,
) -> Result<usize, Refusal>
    requires known_rows { KnownRows sheet.now at routes.old sets.old levels.old figures.old trail.old × (step.kind ≡ kinds.SETTLE) }
    requires by_node { ByNode (job_in sheet.now) at.jobs jobs.now }
    ensures { Did step.kind at.vans (act_all (van_of sheet.now) (day_of sheet.now) (vans_of sheet.now)
        (fleet_with routes.old sets.old levels.old figures.old) trail.old step)
        result routes.new sets.new levels.new figures.new trail.new }
{
    let v = at.vans;
    let i = step.van;
    if v <= i {
        return Err(Refusal::Van);
    }
    if none_open(&sets[i], at.nodes) {
        return Ok(0);
    }
    settle_van(sheet, at, jobs, routes, sets, levels, figures, trail, step)
}

// Step 6: open a level in every van.
fn level(
    sheet: &[u8],
    at: Layout,
    routes: &mut [[usize; Node::MOST]; Fleet::VANS],
    sets: &mut [[u64; Node::MOST]; Fleet::VANS],
    levels: &mut [[usize; State::LEVELS]; Fleet::VANS],
    figures: &mut [[u64; Figures::COUNT]; Fleet::VANS],
    trail: &mut [u64],
    step: Step,
) -> Result<usize, Refusal>
    requires { KnownRows sheet.now at routes.old sets.old levels.old figures.old trail.old × (step.kind ≡ kinds.LEVEL) }
    ensures { Did step.kind at.vans (act_all (van_of sheet.now) (day_of sheet.now) (vans_of sheet.now)
        (fleet_with routes.old sets.old levels.old figures.old) trail.old step)
        result routes.new sets.new levels.new figures.new trail.new }
{
    let v = at.vans;
    let share = trail.len() / v;
    let one = figures_in(&figures[0]);
    if State::LEVELS <= one.depth {
        return Err(Refusal::Depth);
    }
    each(
        at.nodes, v, share, routes, sets, levels, figures, trail, step,
    );
    Ok(0)
}

// Step 7: step back in every van. The rule between vans is asked once, when all have: placing left a record in each, and one alone undone breaks it.
fn back(
    sheet: &[u8],
    at: Layout,
    routes: &mut [[usize; Node::MOST]; Fleet::VANS],
    sets: &mut [[u64; Node::MOST]; Fleet::VANS],
    levels: &mut [[usize; State::LEVELS]; Fleet::VANS],
    figures: &mut [[u64; Figures::COUNT]; Fleet::VANS],
    trail: &mut [u64],
    step: Step,
) -> Result<usize, Refusal>
    requires { KnownRows sheet.now at routes.old sets.old levels.old figures.old trail.old × (step.kind ≡ kinds.BACK) }
    ensures { Did step.kind at.vans (act_all (van_of sheet.now) (day_of sheet.now) (vans_of sheet.now)
        (fleet_with routes.old sets.old levels.old figures.old) trail.old step)
        result routes.new sets.new levels.new figures.new trail.new }
{
    let v = at.vans;
    let n = at.nodes;
    let share = trail.len() / v;
    let one = figures_in(&figures[0]);
    if one.depth < 1 {
        return Err(Refusal::Depth);
    }
    if !each(n, v, share, routes, sets, levels, figures, trail, step) {
        return Err(Refusal::Misfit);
    }
    if share_none(routes, sets, figures, n, v) {
        Ok(0)
    } else {
        Err(Refusal::Misfit)
    }
}

// Step 8: a ward must go somewhere. The mark stands in the first van.
fn oblige(
    sheet: &[u8],
    at: Layout,
    routes: &mut [[usize; Node::MOST]; Fleet::VANS],
    sets: &mut [[u64; Node::MOST]; Fleet::VANS],
    levels: &mut [[usize; State::LEVELS]; Fleet::VANS],
    figures: &mut [[u64; Figures::COUNT]; Fleet::VANS],
    trail: &mut [u64],
    step: Step,
) -> Result<usize, Refusal>
    requires { KnownRows sheet.now at routes.old sets.old levels.old figures.old trail.old × (step.kind ≡ kinds.OBLIGE) }
    ensures { Did step.kind at.vans (act_all (van_of sheet.now) (day_of sheet.now) (vans_of sheet.now)
        (fleet_with routes.old sets.old levels.old figures.old) trail.old step)
        result routes.new sets.new levels.new figures.new trail.new }
{
    let share = trail.len() / at.vans;
    let f = figures_in(&figures[0]);
    let o = trail::steps::oblige(f, at.nodes, step.first, &mut trail[0..share]);
    put_figures(&mut figures[0], after(f, &o));
    rounds(&o)
}

// One step of a fleet.
pub fn act(
    sheet: &[u8],
    at: Layout,
    routes: &mut [[usize; Node::MOST]; Fleet::VANS],
    sets: &mut [[u64; Node::MOST]; Fleet::VANS],
    levels: &mut [[usize; State::LEVELS]; Fleet::VANS],
    figures: &mut [[u64; Figures::COUNT]; Fleet::VANS],
    trail: &mut [u64],
    step: Step,
) -> Result<usize, Refusal>
    requires { KnownRows sheet.now at routes.old sets.old levels.old figures.old trail.old }
    ensures { Did step.kind at.vans (act_all (van_of sheet.now) (day_of sheet.now) (vans_of sheet.now)
        (fleet_with routes.old sets.old levels.old figures.old) trail.old step)
        result routes.new sets.new levels.new figures.new trail.new }
{
    let kind = step.kind;
    if kind == Step::LEVEL {
        return level(sheet, at, routes, sets, levels, figures, trail, step);
    }
    if kind == Step::BACK {
        return back(sheet, at, routes, sets, levels, figures, trail, step);
    }
    if kind == Step::OBLIGE {
        return oblige(sheet, at, routes, sets, levels, figures, trail, step);
    }
    if (Step::PLACE <= kind) & (kind <= Step::SETTLE) {
        return in_van(sheet, at, routes, sets, levels, figures, trail, step);
    }
    Err(Refusal::Kind)
}
