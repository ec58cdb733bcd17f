// What a line tells of the vans. A van whose records are those of before is told as before: neither its route nor its sets nor its marks have changed.
// One that is told anew with as many stops as before has the route of before, and so the course of before.
#![tactic(auto)]

ghost use Rattle.std.specs.Prelude.{◌≡◌, false, cond, not, List, [], ◌∷◌, ℕ, ◌<◌, ◌≤◌, get_or, length, eqb};
ghost use Rattle.laws.specs.Basic.{all_below, any_below, sum_below};
ghost use Rattle.rules.specs.Numbers.{most_vans};
ghost use Rattle.sheet.specs.Section.{vans_of};
ghost use Rattle.day.specs.Tell.{day_of, job_in};
ghost use Rattle.along.specs.Nodes.{ByNode, Routed};
ghost use Rattle.board.specs.Board.{places_of};
ghost use Rattle.rules.specs.Verdict.{alive};
ghost use Rattle.along.specs.Ready.{Ready};
ghost use Rattle.board.specs.Board.{state_with};
ghost use Rattle.van.specs.Act.{plan_in};
ghost use Rattle.fleet.specs.Rows.{figures_in, fleet_with, RowsOf, Figured, ReadyAll};
ghost use Rattle.fleet.specs.Wards.{Nodes};
ghost use Rattle.telling.specs.Told.{told_in, ToldAll, anew, sums_of, course_in, Kept, KeptAll, KeptSome};

use along::nodes::Jobs;
use board::Figures;
use board::places::count;
use fleet::Fleet;
use fleet::rows::figures_in;
use fleet::wards::served;
use rules::{Node, Van};
use sheet::Layout;
use verdict::Course;

// What a line tells of a van: its open places, its records, and its verdict, in a row.
#[derive(Clone, Copy)]
pub struct Told;

impl Told {
    pub const COUNT: usize = 3;
}

pub fn one_if(b: bool) -> usize
    ensures { result ≡ cond b 1 0 }
{
    if b { 1 } else { 0 }
}

// What is kept of a van's route from line to line, in a row: how many stops it had, 1 where it keeps the rules, its nodes, and their partners.
#[derive(Clone, Copy)]
pub struct Way;

impl Way {
    pub const COUNT: usize = 4;
}

// The course of a van's route: as it was kept, where the route has as many stops as then; else looked up anew, and kept.
fn course_of(
    sheet: &[u8],
    at: Layout,
    jobs: &[u32; Jobs::ROOM],
    van: Van,
    route: &[usize; Node::MOST],
    stops: usize,
    every: bool,
    way: &mut [u64; Way::COUNT],
) -> Course
    requires routed { Routed sheet.now at route.now stops jobs.now × (length way.old ≡ 4) }
    requires kept { every ≡ false → get_or way.old 0 0 ≡ stops → Kept sheet.now jobs.now van route.now stops way.old }
    ensures { Kept sheet.now jobs.now van route.now stops way.new
        × (result ≡ course_in way.new) }
{
    if every | (way[0] != stops as u64) {
        let course = verdict::sound(sheet, at, jobs, van, route, stops);
        way[0] = stops as u64;
        way[1] = one_if(course.keeps) as u64;
        way[2] = course.on;
        way[3] = course.called;
        return course;
    }
    Course {
        keeps: way[1] != 0,
        on: way[2],
        called: way[3],
    }
}

// One van, into its row: open places, records, 1 for alive.
fn tell<'a>(
    sheet: &[u8],
    at: Layout,
    jobs: &[u32; Jobs::ROOM],
    van: Van,
    route: &'a [usize; Node::MOST],
    sets: &'a [u64; Node::MOST],
    f: Figures,
    every: bool,
    row: &mut [usize; Told::COUNT],
    way: &mut [u64; Way::COUNT],
)
    requires ready { Ready sheet.now at route.now f.stops sets.now f.marks × (length row.old ≡ 3)
        × ByNode (job_in sheet.now) at.jobs jobs.now × (length way.old ≡ 4) }
    requires kept { every ≡ false → get_or way.old 0 0 ≡ f.stops → Kept sheet.now jobs.now van route.now f.stops way.old }
    ensures by_index { (levels : List ℕ) → row.new ≡ places_of sets.now 64 ∷ f.records
        ∷ cond (alive van (day_of sheet.now) (plan_in (state_with route.now sets.now levels f))) 1 0 ∷ [] }
    ensures kept_2 { Kept sheet.now jobs.now van route.now f.stops way.new }
{
    let places = count(sets, at.nodes);
    let course = course_of(sheet, at, jobs, van, route, f.stops, every, way);
    let alive = verdict::stand(jobs, sets, f.marks, course);
    row[0] = places;
    row[1] = f.records;
    row[2] = one_if(alive);
}

// Whether a van has other records than were told.
pub fn stale(
    figures: &[[u64; Figures::COUNT]; Fleet::VANS],
    told: &[[usize; Told::COUNT]; Fleet::VANS],
    v: usize,
) -> bool
    requires { Figured figures.now × (v ≤ most_vans) }
    ensures { result ≡ any_below v (anew false figures.now told.now) }
{
    (0..v).any(|j| figures_in(&figures[j]).records != told[j][1])
}

// Every van, or those alone whose records are other than they were.
pub fn tell_vans<'a>(
    sheet: &[u8],
    at: Layout,
    jobs: &[u32; Jobs::ROOM],
    routes: &'a [[usize; Node::MOST]; Fleet::VANS],
    sets: &'a [[u64; Node::MOST]; Fleet::VANS],
    figures: &'a [[u64; Figures::COUNT]; Fleet::VANS],
    every: bool,
    told: &mut [[usize; Told::COUNT]; Fleet::VANS],
    ways: &mut [[u64; Way::COUNT]; Fleet::VANS],
)
    requires ready_all { ReadyAll sheet.now at routes.now sets.now figures.now × RowsOf 3 told.old × ByNode (job_in sheet.now) at.jobs jobs.now }
    requires rows_of { RowsOf 4 ways.old × (every ≡ false → KeptSome sheet.now jobs.now routes.now figures.now told.old ways.old) }
    ensures rows_of_2 { RowsOf 3 told.new }
    ensures kept_all { KeptAll sheet.now jobs.now routes.now figures.now ways.new }
    ensures by_index { (levels : List (List ℕ)) → ((j : ℕ) → j < vans_of sheet.now → every ≡ false
        → (figures_in (get_or figures.now j [])).records ≡ get_or (get_or told.old j []) 1 0 → get_or told.old j []
        ≡ told_in sheet.now (fleet_with routes.now sets.now levels figures.now) j)
        → ToldAll sheet.now (fleet_with routes.now sets.now levels figures.now) told.new }
{
    for j in 0..at.vans {
        let f = figures_in(&figures[j]);
        if every | (f.records != told[j][1]) {
            let van = day::look::van(sheet, at, j);
            tell(
                sheet,
                at,
                jobs,
                van,
                &routes[j],
                &sets[j],
                f,
                every,
                &mut told[j],
                &mut ways[j],
            );
        }
    }
}

// What a line tells of all vans: open places and records in all, and the verdict.
#[derive(Clone, Copy)]
pub struct Sums {
    pub places: usize,
    pub records: usize,
    pub alive: bool,
}

// The open places and the records in all, and whether each van is alive.
fn sum_up(told: &[[usize; Told::COUNT]; Fleet::VANS], v: usize) -> Sums
    requires { (v ≤ most_vans) × ((j : ℕ) → j < v → (get_or (get_or told.now j []) 0 0 ≤ 4096) × (get_or (get_or told.now j []) 1 0 ≤ 4096)) }
    ensures { result ≡ record {
      places = sum_below v (λ j. get_or (get_or told.now j []) 0 0);
      records = sum_below v (λ j. get_or (get_or told.now j []) 1 0);
      alive = all_below v (λ j. not (eqb (get_or (get_or told.now j []) 2 0) 0));
    } }
{
    let mut places = 0;
    let mut records = 0;
    let mut alive = true;
    for j in 0..v {
        places += told[j][0];
        records += told[j][1];
        alive &= told[j][2] != 0;
    }
    Sums {
        places,
        records,
        alive,
    }
}

// The sums of the vans as they are told, and the verdict.
pub fn sums_now<'a>(
    told: &[[usize; Told::COUNT]; Fleet::VANS],
    routes: &'a [[usize; Node::MOST]; Fleet::VANS],
    sets: &'a [[u64; Node::MOST]; Fleet::VANS],
    figures: &'a [[u64; Figures::COUNT]; Fleet::VANS],
    v: usize,
) -> Sums
    requires v_le_most_vans { (v ≤ most_vans) × ((j : ℕ) → j < v → (get_or (get_or told.now j []) 0 0 ≤ 4096) × (get_or (get_or told.now j []) 1 0 ≤ 4096)) }
    requires figured { Figured figures.now × ((j : ℕ) → j < v → Nodes 64 (figures_in (get_or figures.now j [])).stops (get_or routes.now j [])) }
    ensures { (levels : List (List ℕ)) → result
        ≡ sums_of v told.now (fleet_with routes.now sets.now levels figures.now) }
{
    let sums = sum_up(told, v);
    let all = served(routes, sets, figures, v);
    Sums {
        places: sums.places,
        records: sums.records,
        alive: sums.alive & all,
    }
}
