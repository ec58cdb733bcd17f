// A fleet: eight states by value, of which a sheet tells how many are vans. form: when it is in form. wards: what the vans have of the wards.
// rows: a fleet in arrays, a row of each for every state, which steps change in place.
#![tactic(auto)]

pub mod form;
pub mod rows;
pub mod wards;

ghost use Rattle.std.specs.Prelude.{◌≡◌, ◌<◌};
ghost use Rattle.laws.specs.Basic.{Filled};
ghost use Rattle.sheet.specs.Place.{Laid};
ghost use Rattle.day.specs.Tell.{class_of, admitted};
ghost use Rattle.board.specs.Fresh.{fresh_state};
ghost use Rattle.fleet.specs.Fleet.{no_fleet, one_van, fresh_fleet};

use board::State;
use day::classes::{bit, read_classes};
use rules::{Node, Van};
use sheet::Layout;

// The states of the vans, the marks "must go somewhere" in that of the first; a state that is no van has every number 0.
#[derive(Clone, Copy)]
pub struct Fleet {
    pub vans: [State; Fleet::VANS],
}

impl Fleet {
    // The most vans.
    pub const VANS: usize = Van::MOST;

    // Every number 0: it stands beside a refusal.
    pub fn none() -> Fleet
        ensures { result ≡ no_fleet }
    {
        Fleet {
            vans: [State::none(); Fleet::VANS],
        }
    }

    // A fleet of one van, written out: where it is to stand the compiler clears what is no van, and copies none of it.
    pub fn of_one(s: State) -> Fleet
        ensures { result ≡ one_van s }
    {
        let idle = State::none();
        Fleet {
            vans: [s, idle, idle, idle, idle, idle, idle, idle],
        }
    }

    // The vans of a sheet, each of them fresh.
    pub fn fresh(sheet: &[u8], at: Layout) -> Fleet
        requires { Laid sheet.now at }
        ensures { result ≡ fresh_fleet at.nodes at.vans (admitted sheet.now) }
    {
        let mut classes = [0u32; Node::MOST];
        read_classes(sheet, at, &mut classes);
        let mut vans = [State::none(); Fleet::VANS];
        let v = at.vans;
        for j in 0..v {
            vans[j] = fresh_van(sheet, at, &classes, j);
        }
        Fleet { vans }
    }
}

// Van j of a sheet whose class sets were read, fresh.
pub fn fresh_van(sheet: &[u8], at: Layout, classes: &[u32; Node::MOST], j: usize) -> State
    requires { Laid sheet.now at × (j < at.vans) × Filled 64 (class_of sheet.now) 0 at.nodes classes.now }
    ensures { result ≡ fresh_state at.nodes (admitted sheet.now j) }
{
    let one = bit(sheet, at, j);
    State::fresh(at.nodes, classes, one)
}

// The only van of a sheet that has one, fresh.
pub fn first_van(sheet: &[u8], at: Layout) -> State
    requires { Laid sheet.now at }
    ensures { result ≡ fresh_state at.nodes (admitted sheet.now 0) }
{
    let mut classes = [0u32; Node::MOST];
    read_classes(sheet, at, &mut classes);
    fresh_van(sheet, at, &classes, 0)
}
