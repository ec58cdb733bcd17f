// One van, on a sheet that no call refuses and a state in form, neither asked again: its step, and its verdict.
#![tactic(auto)]

ghost use Rattle.std.specs.Prelude.{◌≡◌, List, ℕ, ◌≤◌};
ghost use Rattle.day.specs.Tell.{day_of, job_in};
ghost use Rattle.rules.specs.Numbers.{kinds};
ghost use Rattle.rules.specs.Verdict.{alive};
ghost use Rattle.rules.specs.declared.Van.{Van};
ghost use Rattle.board.specs.Board.{board, state_with};
ghost use Rattle.board.specs.Held.{Sound};
ghost use Rattle.records.specs.Trail.{room_of};
ghost use Rattle.trail.specs.Steps.{ran, place_step, settle_step};
ghost use Rattle.along.specs.Ready.{Ready};
ghost use Rattle.along.specs.Nodes.{ByNode};
ghost use Rattle.van.specs.Act.{plan_in, settled_sets, settling_rounds, act_of};
ghost use Rattle.van.specs.Known.{Known};

use along::nodes::Jobs;
use board::{Figures, State};
use rules::{Node, Refusal, Step, Van};
use sheet::Layout;
use trail::Outcome;
use trail::refusals::place_refusal;
use trail::steps::{back, close, exclude, level, place, require};

// Placing x after p, if nothing refuses.
#[tactic(auto, unfolding(trail::specs::Steps::unless_refused, trail::specs::Steps::place_step, records::specs::Trail::room_of))]
fn placing(
    route: &mut [usize; Node::MOST],
    sets: &mut [u64; Node::MOST],
    f: Figures,
    n: usize,
    p: usize,
    x: usize,
    trail: &mut [u64],
) -> Result<Outcome, Refusal>
    requires { Sound n (board route.old f.stops sets.old f.marks f.must) }
    ensures { (levels : List ℕ) → place_step n (state_with route.old sets.old levels f) trail.old p x
        ≡ ran f result route.new sets.new levels trail.new }
{
    place_refusal(route, sets, f, trail.len() / 2, n, p, x)?;
    Ok(place(route, sets, f, n, p, x, trail))
}

// The steps other than settling: they ask neither for the van nor for its jobs.
#[tactic(auto, unfolding(crate::specs::Act::act_of, board::specs::Board::route_of))]
pub fn change(
    sheet: &[u8],
    at: Layout,
    route: &mut [usize; Node::MOST],
    sets: &mut [u64; Node::MOST],
    levels: &mut [usize; State::LEVELS],
    f: Figures,
    trail: &mut [u64],
    step: Step,
) -> Result<Outcome, Refusal>
    requires { Known sheet.now at (state_with route.old sets.old levels.old f) trail.old × (step.kind ≡ kinds.SETTLE → ⊥) }
    ensures { (v : Van) →
        act_of v (day_of sheet.now) (state_with route.old sets.old levels.old f)
        trail.old step.kind step.first step.second
        ≡ ran f result route.new sets.new levels.new trail.new }
{
    let n = at.nodes;
    let kind = step.kind;
    let first = step.first;
    let second = step.second;
    match kind {
        Step::PLACE => placing(route, sets, f, n, first, second, trail),
        Step::CLOSE => close(route, sets, f, n, first, second, trail),
        Step::EXCLUDE => {
            let owed = verdict::owed(sheet, at, route, f.stops, f.marks, first);
            exclude(route, sets, f, n, owed, first, trail)
        },
        Step::REQUIRE => require(route, f, n, first, trail),
        Step::LEVEL => level(levels, f),
        Step::BACK => back(route, sets, levels, f, n, trail),
        _ => Err(Refusal::Kind),
    }
}

// Settling, with the rounds that struck something; `jobs` has the jobs of the sheet by node.
fn settling(
    sheet: &[u8],
    at: Layout,
    jobs: &[u32; Jobs::ROOM],
    van: Van,
    route: &[usize; Node::MOST],
    sets: &mut [u64; Node::MOST],
    f: Figures,
    trail: &mut [u64],
) -> Result<Outcome, Refusal>
    requires ready { Ready sheet.now at route.now f.stops sets.old f.marks × (f.records ≤ room_of trail.old) × (van.limit ≤ 1000000) }
    requires by_node { ByNode (job_in sheet.now) at.jobs jobs.now }
    ensures { (levels : List ℕ) →
        settle_step (state_with route.now sets.old levels f) trail.old
        (settling_rounds van (day_of sheet.now) (state_with route.now sets.old levels f))
        (settled_sets van (day_of sheet.now) (state_with route.now sets.old levels f))
        ≡ ran f result route.now sets.new levels trail.new }
{
    let mut new = *sets;
    let rounds = settle::settling::settle(sheet, at, jobs, van, route, f.stops, sets, &mut new);
    trail::steps::settle(sets, f, rounds, &new, at.nodes, trail)
}

// Step 5 of a van: the sets and the trail are changed in place.
#[tactic(auto, unfolding(crate::specs::Act::act_of))]
pub fn settle(
    sheet: &[u8],
    at: Layout,
    jobs: &[u32; Jobs::ROOM],
    van: Van,
    route: &mut [usize; Node::MOST],
    sets: &mut [u64; Node::MOST],
    levels: &mut [usize; State::LEVELS],
    f: Figures,
    trail: &mut [u64],
    step: Step,
) -> Result<Outcome, Refusal>
    requires known { Known sheet.now at (state_with route.old sets.old levels.old f) trail.old × (van.limit ≤ 1000000) }
    requires by_node { ByNode (job_in sheet.now) at.jobs jobs.now × (step.kind ≡ kinds.SETTLE) }
    ensures { act_of van (day_of sheet.now) (state_with route.old sets.old levels.old f)
        trail.old step.kind step.first step.second
        ≡ ran f result route.new sets.new levels.new trail.new }
{
    settling(sheet, at, jobs, van, route, sets, f, trail)
}

// The verdict of a van; `jobs` has the jobs of the sheet by node.
#[tactic(auto, unfolding(board::specs::Board::route_of, board::specs::Board::set_of, board::specs::Board::open_at))]
pub fn alive<'a>(
    sheet: &[u8],
    at: Layout,
    jobs: &[u32; Jobs::ROOM],
    van: Van,
    route: &'a [usize; Node::MOST],
    sets: &'a [u64; Node::MOST],
    f: Figures,
) -> bool
    requires { Ready sheet.now at route.now f.stops sets.now f.marks × ByNode (job_in sheet.now) at.jobs jobs.now }
    ensures { (levels : List ℕ) →
        result ≡ alive van (day_of sheet.now) (plan_in (state_with route.now sets.now levels f)) }
{
    verdict::alive(sheet, at, jobs, van, route, f.stops, sets, f.marks)
}
