// When a step is refused, in the order of documents 01 and 02. The state is in form, and the caller has asked so.
#![tactic(auto,
// a node that was asked is a place of a word; the word of the route has the nodes on it
using(crate::proofs::StepLaws::inner_below, crate::proofs::StepLaws::leg_below, crate::proofs::StepLaws::on_asked),
// what refuses a placing
unfolding(crate::specs::Refusals::place_shut, crate::specs::Refusals::place_refusal,
// the other steps
crate::specs::Refusals::exclude_refusal, crate::specs::Refusals::require_refusal, crate::specs::Refusals::oblige_refusal,
// the first number that is not 0, and what they read of the board
laws::specs::Basic::or_else, board::specs::Board::set_of, board::specs::Board::open_at))]

ghost use Rattle.std.specs.Prelude.{◌≡◌, List, ℕ};
ghost use Rattle.rules.specs.Refused.{number_in};
ghost use Rattle.board.specs.Board.{board};
ghost use Rattle.records.specs.Undo.{Readable};
ghost use Rattle.trail.specs.Refusals.{place_shut, place_refusal, exclude_refusal, require_refusal, oblige_refusal};

use board::Figures;
use board::form::{inner, leg_node};
use board::route::word;
use rules::{Node, Refusal};

// Placing x after p and closing the place p of x are refused alike; the room apart.
pub fn place_shut<'a>(
    route: &'a [usize; Node::MOST],
    sets: &'a [u64; Node::MOST],
    f: Figures,
    n: usize,
    p: usize,
    x: usize,
) -> Result<(), Refusal>
    requires { Readable n f.stops route.now }
    ensures { number_in result ≡ place_shut n (board route.now f.stops sets.now f.marks f.must) p x }
{
    if !inner(n, x) {
        return Err(Refusal::Node);
    }
    if !leg_node(n, p) {
        return Err(Refusal::Node);
    }
    let on = word(route, f.stops);
    if bits::has(on, x) {
        return Err(Refusal::Placed);
    }
    if !bits::has(on, p) {
        return Err(Refusal::Unplaced);
    }
    if bits::has(sets[x], p) {
        Ok(())
    } else {
        Err(Refusal::Shut)
    }
}

// The same, and room for one record.
pub fn place_refusal<'a>(
    route: &'a [usize; Node::MOST],
    sets: &'a [u64; Node::MOST],
    f: Figures,
    room: usize,
    n: usize,
    p: usize,
    x: usize,
) -> Result<(), Refusal>
    requires { Readable n f.stops route.now }
    ensures { number_in result ≡ place_refusal n (board route.now f.stops sets.now f.marks f.must) f.records room p x }
{
    place_shut(route, sets, f, n, p, x)?;
    if f.records < room {
        Ok(())
    } else {
        Err(Refusal::Room)
    }
}

// Excluding x.
pub fn exclude_refusal<'a>(
    route: &'a [usize; Node::MOST],
    sets: &'a [u64; Node::MOST],
    f: Figures,
    room: usize,
    n: usize,
    owed: bool,
    x: usize,
) -> Result<(), Refusal>
    requires { Readable n f.stops route.now }
    ensures { number_in result ≡ exclude_refusal n (board route.now f.stops sets.now f.marks f.must) f.records room owed x }
{
    if !inner(n, x) {
        return Err(Refusal::Node);
    }
    let on = word(route, f.stops);
    if bits::has(on, x) {
        return Err(Refusal::Placed);
    }
    if owed {
        return Err(Refusal::Owed);
    }
    if sets[x] == 0 {
        return Ok(());
    }
    if f.records < room {
        Ok(())
    } else {
        Err(Refusal::Room)
    }
}

// Requiring x.
pub fn require_refusal(
    route: &[usize; Node::MOST],
    f: Figures,
    room: usize,
    n: usize,
    x: usize,
) -> Result<(), Refusal>
    requires { Readable n f.stops route.now }
    ensures { (sets : List ℕ) → number_in result ≡ require_refusal n (board route.now f.stops sets f.marks f.must) f.records room x }
{
    if !inner(n, x) {
        return Err(Refusal::Node);
    }
    let on = word(route, f.stops);
    if bits::has(on, x) {
        return Err(Refusal::Placed);
    }
    if bits::has(f.marks, x) {
        return Ok(());
    }
    if f.records < room {
        Ok(())
    } else {
        Err(Refusal::Room)
    }
}

// Obliging x, placed or not.
pub fn oblige_refusal(f: Figures, room: usize, n: usize, x: usize) -> Result<(), Refusal>
    ensures { (route sets : List ℕ) → number_in result ≡ oblige_refusal n (board route f.stops sets f.marks f.must) f.records room x }
{
    if !inner(n, x) {
        return Err(Refusal::Node);
    }
    if bits::has(f.must, x) {
        return Ok(());
    }
    if f.records < room {
        Ok(())
    } else {
        Err(Refusal::Room)
    }
}
