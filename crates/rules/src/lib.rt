// The rules of the round as mathematics: what a reader must believe stands in specs/, the theorems in proofs/.
// The code here is what the mathematics, the sheet and the planner share: a few types, and the limits and numbers of 01 and 02, each with the
// type that it belongs to.
#![tactic(auto)]

ghost use Rattle.std.specs.Prelude.{◌≡◌};
ghost use Rattle.rules.specs.Numbers.{step_said};
ghost use Rattle.rules.specs.Refused.{number_of};
ghost use Rattle.rules.specs.Load.{load_of};
ghost use Rattle.rules.specs.Class.{admits};

// A job is one of three things, each with its own data: aboard from the start to a node, from a node to the end,
// or from one node to another.
#[derive(Clone, Copy)]
pub enum Job {
    Clean { node: usize, load: usize },
    Soiled { node: usize, load: usize },
    Transfer { from: usize, to: usize, load: usize },
}

impl Job {
    // The most jobs that a sheet has.
    pub const MOST: usize = 155;

    // How much it loads.
    pub fn load(self) -> usize
        ensures { result ≡ load_of self }
    {
        match self {
            Job::Clean { node: _, load } => load,
            Job::Soiled { node: _, load } => load,
            Job::Transfer {
                from: _,
                to: _,
                load,
            } => load,
        }
    }
}

// What one van can carry, and how far it may drive.
#[derive(Clone, Copy)]
pub struct Van {
    pub capacity: usize,
    pub limit: usize,
}

impl Van {
    // The most vans that a sheet has.
    pub const MOST: usize = 8;
}

// A node of the day: the start, a ward or the end, named by its number.
#[derive(Clone, Copy)]
pub struct Node;

impl Node {
    // The most nodes that a sheet has: an array with an entry for each node, or for each stop of a route, has as many.
    pub const MOST: usize = 64;

    // Whether a node with this class set admits a van of this bit.
    pub fn admits(set: u32, bit: u32) -> bool
        ensures { result ≡ admits set bit }
    {
        set & bit != 0
    }
}

// A step that a sheet or a caller asks for: the van it is for, its kind, and two words for the nodes that it names.
#[derive(Clone, Copy)]
pub struct Step {
    pub van: usize,
    pub kind: usize,
    pub first: usize,
    pub second: usize,
}

impl Step {
    // The most steps that a sheet has.
    pub const MOST: usize = 2000;

    pub const PLACE: usize = 1;

    pub const CLOSE: usize = 2;

    pub const EXCLUDE: usize = 3;

    pub const REQUIRE: usize = 4;

    pub const SETTLE: usize = 5;

    pub const LEVEL: usize = 6;

    pub const BACK: usize = 7;

    pub const OBLIGE: usize = 8;

    // What one van weighs in the first word of a step.
    pub const VAN: usize = 256;

    // The step that three words say.
    pub fn said(word: usize, first: usize, second: usize) -> Step
        ensures { result ≡ step_said word first second }
    {
        Step {
            van: word / Step::VAN,
            kind: word % Step::VAN,
            first: first,
            second: second,
        }
    }
}

// Why a sheet or a step is refused: 01's table, and 02's, each with its number there. Each is explained in specs/Numbers.antt.
#[derive(Clone, Copy, Debug, PartialEq, Eq)]
pub enum Refusal {
    // Of a sheet.
    Short = 1,
    Count = 2,
    Value = 3,
    Twice = 4,
    Triangle = 5,
    Heavy = 6,
    Class = 7,

    // Of a step.
    Kind = 11,
    Node = 12,
    Placed = 13,
    Unplaced = 14,
    Shut = 15,
    Owed = 16,
    Room = 17,
    Depth = 18,
    Form = 19,
    Misfit = 20,
    Van = 21,
    Claimed = 22,
}

impl Refusal {
    // Its number in the table.
    pub fn number(self) -> usize
        ensures { result ≡ number_of self }
    {
        self as usize
    }
}
