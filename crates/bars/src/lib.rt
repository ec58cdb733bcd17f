// Why placing a ward in one van of a fleet is refused.
#![tactic(auto)]

ghost use Rattle.std.specs.Prelude.{◌≡◌, List, ℕ, ◌<◌, ◌≤◌};
ghost use Rattle.laws.specs.Basic.{all_below};
ghost use Rattle.sheet.specs.Section.{vans_of};
ghost use Rattle.rules.specs.Numbers.{most_vans};
ghost use Rattle.rules.specs.Refused.{number_in};
ghost use Rattle.day.specs.Tell.{day_of};
ghost use Rattle.records.specs.Trail.{room_of};
ghost use Rattle.fleet.specs.Fleet.{trail_in};
ghost use Rattle.fleet.specs.Rows.{fleet_with, Rows, Figured, ReadyAll};
ghost use Rattle.bars.specs.Bars.{claimed, roomy, place_bar};

use board::Figures;
use fleet::Fleet;
use fleet::rows::figures_in;
use rules::{Node, Refusal};
use sheet::Layout;
use trail::refusals::place_shut;

// Whether another van than `van` owes x. The partners of x are the same for all of them.
fn is_claimed<'a>(
    sheet: &[u8],
    at: Layout,
    routes: &'a [[usize; Node::MOST]; Fleet::VANS],
    sets: &'a [[u64; Node::MOST]; Fleet::VANS],
    figures: &'a [[u64; Figures::COUNT]; Fleet::VANS],
    van: usize,
    x: usize,
) -> bool
    requires { ReadyAll sheet.now at routes.now sets.now figures.now × (van < vans_of sheet.now) }
    ensures { (levels : List (List ℕ)) →
        result ≡ claimed (day_of sheet.now) (vans_of sheet.now) (fleet_with routes.now sets.now levels figures.now) van x }
{
    let v = at.vans;
    if v == 1 {
        return false;
    }
    let partners = verdict::partners(sheet, at, x);
    (0..v).any(|j| {
        let f = figures_in(&figures[j]);
        (j != van) && verdict::owes(&routes[j], f.stops, f.marks, partners, x)
    })
}

// Whether every van has room for its record, where each part of the trail has so much.
fn has_room<'a>(
    sets: &'a [[u64; Node::MOST]; Fleet::VANS],
    figures: &'a [[u64; Figures::COUNT]; Fleet::VANS],
    v: usize,
    room: usize,
    van: usize,
    x: usize,
) -> bool
    requires { (v ≤ most_vans) × (x < 64) × Rows sets.now × Figured figures.now }
    ensures { (routes levels : List (List ℕ)) (t : List ℕ) → ((j : ℕ) → j < v → room_of (trail_in v t j) ≡ room)
        → result ≡ all_below v (roomy v (fleet_with routes sets.now levels figures.now) t van x) }
{
    (0..v).all(|j| {
        let f = figures_in(&figures[j]);
        let spare = (j != van) & (sets[j][x] == 0);
        spare | (f.records < room)
    })
}

// Why placing x after p in a van is refused.
pub fn place_bar<'a>(
    sheet: &[u8],
    at: Layout,
    routes: &'a [[usize; Node::MOST]; Fleet::VANS],
    sets: &'a [[u64; Node::MOST]; Fleet::VANS],
    figures: &'a [[u64; Figures::COUNT]; Fleet::VANS],
    room: usize,
    van: usize,
    p: usize,
    x: usize,
) -> Result<(), Refusal>
    requires { ReadyAll sheet.now at routes.now sets.now figures.now × Rows sets.now × (van < vans_of sheet.now) }
    ensures { (levels : List (List ℕ)) (t : List ℕ)
        → ((j : ℕ) → j < vans_of sheet.now → room_of (trail_in (vans_of sheet.now) t j) ≡ room)
        → number_in result ≡ place_bar (day_of sheet.now) (vans_of sheet.now)
        (fleet_with routes.now sets.now levels figures.now) t van p x }
{
    let f = figures_in(&figures[van]);
    place_shut(&routes[van], &sets[van], f, at.nodes, p, x)?;
    if is_claimed(sheet, at, routes, sets, figures, van, x) {
        return Err(Refusal::Claimed);
    }
    if has_room(sets, figures, at.vans, room, van, x) {
        Ok(())
    } else {
        Err(Refusal::Room)
    }
}
