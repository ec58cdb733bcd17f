// A step in which every van takes its turn: placing, opening a level, stepping back.
ghost use Rattle.std.specs.Prelude.{◌≡◌, ℕ, ◌<◌, ◌≤◌, eqb};
ghost use Rattle.laws.specs.Basic.{all_below};
ghost use Rattle.rules.specs.Numbers.{most_vans};
ghost use Rattle.board.specs.Board.{state_with};
ghost use Rattle.trail.specs.Steps.{ran};
ghost use Rattle.fleet.specs.Fleet.{state_in, share_of, trail_in};
ghost use Rattle.fleet.specs.Rows.{fleet_with};
ghost use Rattle.turns.specs.Together.{acted_all};
ghost use Rattle.turns.specs.Turn.{turn_of, turns_of, Turning, EightRows};

use board::{Figures, State};
use fleet::Fleet;
use fleet::rows::{figures_in, put_figures};
use rules::{Node, Refusal, Step};
use trail::steps::{back, level, place, shut_out};
use trail::{Outcome, after};

// Van j's turn.
fn turn(
    n: usize,
    j: usize,
    route: &mut [usize; Node::MOST],
    sets: &mut [u64; Node::MOST],
    levels: &mut [usize; State::LEVELS],
    f: Figures,
    trail: &mut [u64],
    step: Step,
) -> Result<Outcome, Refusal>
    requires { Turning n step j (state_with route.old sets.old levels.old f) trail.old }
    ensures { turn_of n step j (state_with route.old sets.old levels.old f) trail.old
        ≡ ran f result route.new sets.new levels.new trail.new }
{
    if step.kind == Step::PLACE {
        if j == step.van {
            return Ok(place(route, sets, f, n, step.first, step.second, trail));
        }
        return Ok(shut_out(sets, f, step.second, trail));
    }
    if step.kind == Step::LEVEL {
        return level(levels, f);
    }
    back(route, sets, levels, f, n, trail)
}

// Every van's turn, and whether all were accepted; each has `share` words of the trail.
pub fn each(
    n: usize,
    v: usize,
    share: usize,
    routes: &mut [[usize; Node::MOST]; Fleet::VANS],
    sets: &mut [[u64; Node::MOST]; Fleet::VANS],
    levels: &mut [[usize; State::LEVELS]; Fleet::VANS],
    figures: &mut [[u64; Figures::COUNT]; Fleet::VANS],
    trail: &mut [u64],
    step: Step,
) -> bool
    requires le_v { (1 ≤ v) × (v ≤ most_vans) × (share ≡ share_of v trail.old) × EightRows routes.old sets.old levels.old figures.old }
    requires by_index { (j : ℕ) → j < v → Turning n step j (state_in (fleet_with routes.old sets.old levels.old figures.old) j) (trail_in v trail.old j) }
    ensures { (turns_of n v (fleet_with routes.old sets.old levels.old figures.old) trail.old step
        ≡ acted_all 0 0 (fleet_with routes.new sets.new levels.new figures.new) trail.new)
        × (result ≡ all_below v (λ j. eqb (turn_of n step j (state_in (fleet_with routes.old sets.old levels.old figures.old) j) (trail_in v trail.old j)).0.answer 0))
        × EightRows routes.new sets.new levels.new figures.new }
{
    let mut fits = true;
    for j in 0..v {
        let from = j * share;
        let end = from + share;
        let f = figures_in(&figures[j]);
        let o = turn(
            n,
            j,
            &mut routes[j],
            &mut sets[j],
            &mut levels[j],
            f,
            &mut trail[from..end],
            step,
        );
        put_figures(&mut figures[j], after(f, &o));
        fits &= o.is_ok();
    }
    fits
}
