// The board: a round in the making, by value. form: when a state is in form. change: a node placed, with no trail.
// route and places: what these do to the one array and to the other.
#![tactic(auto)]

pub mod change;
pub mod form;
pub mod places;
pub mod route;

ghost use Rattle.std.specs.Prelude.{◌≡◌, cond, ◌≤◌, length, get_or};
ghost use Rattle.rules.specs.Class.{admits};
ghost use Rattle.board.specs.Fresh.{no_state, no_figures, fresh_state, fresh_sets};

use rules::Node;

// The route, each unplaced node's set of open places, the marks of required nodes, those of wards that must go somewhere, and for each level the
// record count when it was opened.
#[derive(Clone, Copy)]
pub struct State {
    pub route: [usize; Node::MOST],
    pub stops: usize,
    pub sets: [u64; Node::MOST],
    pub marks: u64,
    pub must: u64,
    pub levels: [usize; State::LEVELS],
    pub depth: usize,
    pub records: usize,
}

// The numbers of a state beside its three arrays.
#[derive(Clone, Copy)]
pub struct Figures {
    pub stops: usize,
    pub marks: u64,
    pub must: u64,
    pub depth: usize,
    pub records: usize,
}

impl State {
    // The most levels that can be open.
    pub const LEVELS: usize = 64;

    // Every number 0: it stands beside a refusal.
    #[tactic(auto, unfolding(crate::specs::Fresh::no_state))]
    pub fn none() -> State
        ensures { result ≡ no_state }
    {
        State {
            route: [0; Node::MOST],
            stops: 0,
            sets: [0; Node::MOST],
            marks: 0,
            must: 0,
            levels: [0; State::LEVELS],
            depth: 0,
            records: 0,
        }
    }

    // Route 0, n - 1; every other node whose class set has the van's bit is open in leg 0.
    #[tactic(auto, unfolding(crate::specs::Fresh::fresh_state))]
    pub fn fresh(n: usize, classes: &[u32; Node::MOST], bit: u32) -> State
        requires { (2 ≤ n) × (n ≤ 64) × (length classes.now ≡ 64) }
        ensures { result ≡ fresh_state n (λ y. admits (get_or classes.now y 0) bit) }
    {
        let mut route = [0usize; Node::MOST];
        route[1] = n - 1;
        let sets = fresh_sets(n, classes, bit);
        State {
            route,
            stops: 2,
            sets,
            marks: 0,
            must: 0,
            levels: [0; State::LEVELS],
            depth: 0,
            records: 0,
        }
    }
}

impl Figures {
    // How many they are.
    pub const COUNT: usize = 5;

    // Every number 0: those of the state that stands beside a refusal.
    #[tactic(auto, unfolding(crate::specs::Fresh::no_figures))]
    pub fn none() -> Figures
        ensures { result ≡ no_figures }
    {
        Figures {
            stops: 0,
            marks: 0,
            must: 0,
            depth: 0,
            records: 0,
        }
    }
}

// Leg 0 for a node that admits the van, no leg for another.
fn fresh_set(class: u32, bit: u32) -> u64
    ensures { result ≡ cond (admits class bit) 1 0 }
{
    if Node::admits(class, bit) { 1 } else { 0 }
}

fn fresh_sets(n: usize, classes: &[u32; Node::MOST], bit: u32) -> [u64; Node::MOST]
    requires { (2 ≤ n) × (n ≤ 64) × (length classes.now ≡ 64) }
    ensures { result ≡ fresh_sets n (λ y. admits (get_or classes.now y 0) bit) }
{
    let mut sets = [0u64; Node::MOST];
    let end = n - 1;
    for y in 1..end {
        sets[y] = fresh_set(classes[y], bit);
    }
    sets
}
