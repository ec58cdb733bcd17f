// The steps on a state in form, asked so by the caller: the answer, and state and trail changed in place. Refused: state and trail as before.
#![tactic(auto,
// what an accepted step knows
using(crate::proofs::StepLaws::inner_below, crate::proofs::StepLaws::placeable, crate::proofs::StepLaws::excludable),
// refused or done, with its record
unfolding(crate::specs::Steps::unless_refused, crate::specs::Steps::recorded, laws::specs::Basic::or_else, records::specs::Trail::room_of,
// the steps on a node
crate::specs::Steps::place_step, crate::specs::Steps::exclude_step, crate::specs::Steps::require_step, crate::specs::Steps::oblige_step,
// a level opened
crate::specs::Steps::level_step,
// stepping back to it
crate::specs::Steps::back_step, crate::specs::Steps::base_of, crate::specs::Steps::undo_level, crate::specs::Steps::dropped,
// what they change of the board
board::specs::Board::set_of, board::specs::Change::put_set, board::specs::Change::marked, board::specs::Change::obliged))]

ghost use Rattle.std.specs.Prelude.{◌≡◌, true, false, Ok, List, ℕ, ◌≤◌, ◌<◌, length, get_or};
ghost use Rattle.board.specs.Board.{board, state_with};
ghost use Rattle.board.specs.Form.{form_with};
ghost use Rattle.board.specs.Held.{Sound};
ghost use Rattle.records.specs.Trail.{room_of, Alike};
ghost use Rattle.trail.specs.Refusals.{place_refusal, exclude_refusal};
ghost use Rattle.records.specs.Undo.{Readable, undid};
ghost use Rattle.trail.specs.Steps.{answered, ran, shrank, place_step, close_step, exclude_step, require_step, settle_step, level_step, dropped, back_step, oblige_step};

use crate::Outcome;
use crate::refusals::{exclude_refusal, oblige_refusal, place_refusal, require_refusal};
use board::{Figures, State};
use records::undo::{Undone, undo_many};
use records::write::{Record, first_word, needed, note, push};
use rules::{Node, Refusal};

// Place x after p, which nothing refuses.
pub fn place(
    route: &mut [usize; Node::MOST],
    sets: &mut [u64; Node::MOST],
    f: Figures,
    n: usize,
    p: usize,
    x: usize,
    trail: &mut [u64],
) -> Outcome
    requires sound { Sound n (board route.old f.stops sets.old f.marks f.must) }
    requires x_value { place_refusal n (board route.old f.stops sets.old f.marks f.must) f.records (room_of trail.old) p x ≡ 0 }
    ensures { (levels : List ℕ) → place_step n (state_with route.old sets.old levels f) trail.old p x
        ≡ ran f (Ok result) route.new sets.new levels trail.new }
{
    let stops = f.stops;
    let i = f.records;
    push(trail, i, first_word(Record::PLACING, x), sets[x]);
    board::change::place(route, sets, stops, n, p, x);
    Outcome::at(Figures {
        stops: stops + 1,
        records: i + 1,
        ..f
    })
}

// The set of x becomes w, with its record.
fn shrink(sets: &mut [u64; Node::MOST], f: Figures, x: usize, w: u64, trail: &mut [u64]) -> Outcome
    requires { (x < 64) × (f.records < room_of trail.old) }
    ensures { (route levels : List ℕ) → shrank (state_with route sets.old levels f) trail.old x w
        ≡ ran f (Ok result) route sets.new levels trail.new }
{
    let i = f.records;
    push(trail, i, first_word(Record::SHRINKING, x), sets[x]);
    sets[x] = w;
    Outcome::at(Figures {
        records: i + 1,
        ..f
    })
}

// Close the place p of x.
#[tactic(auto, using(crate::proofs::StepLaws::inner_below, crate::proofs::StepLaws::placeable),
// the record of the smaller set is as `shrink` has it
unfolding(crate::specs::Steps::unless_refused, crate::specs::Steps::close_step, board::specs::Board::set_of, records::specs::Trail::room_of))]
pub fn close(
    route: &[usize; Node::MOST],
    sets: &mut [u64; Node::MOST],
    f: Figures,
    n: usize,
    p: usize,
    x: usize,
    trail: &mut [u64],
) -> Result<Outcome, Refusal>
    requires { Sound n (board route.now f.stops sets.old f.marks f.must) }
    ensures { (levels : List ℕ) → close_step n (state_with route.now sets.old levels f) trail.old p x
        ≡ ran f result route.now sets.new levels trail.new }
{
    let room = trail.len() / 2;
    place_refusal(route, sets, f, room, n, p, x)?;
    let w = sets[x];
    Ok(shrink(sets, f, x, bits::without(w, p), trail))
}

// Exclude x, which nothing refuses: close all its places. None open: nothing changes.
#[tactic(auto, unfolding(crate::specs::Steps::unless_refused, crate::specs::Steps::exclude_step, board::specs::Board::set_of))]
pub fn shut_out(sets: &mut [u64; Node::MOST], f: Figures, x: usize, trail: &mut [u64]) -> Outcome
    requires { (x < 64) × ((get_or sets.old x 0 ≡ 0 → ⊥) → f.records < room_of trail.old) }
    ensures { (n : ℕ) (route levels : List ℕ)
        → exclude_refusal n (board route f.stops sets.old f.marks f.must) f.records (room_of trail.old) false x ≡ 0
        → exclude_step n (state_with route sets.old levels f) trail.old false x
        ≡ ran f (Ok result) route sets.new levels trail.new }
{
    if sets[x] == 0 {
        return Outcome::at(f);
    }
    shrink(sets, f, x, 0, trail)
}

// Exclude x, which is owed or not.
pub fn exclude(
    route: &[usize; Node::MOST],
    sets: &mut [u64; Node::MOST],
    f: Figures,
    n: usize,
    owed: bool,
    x: usize,
    trail: &mut [u64],
) -> Result<Outcome, Refusal>
    requires { Sound n (board route.now f.stops sets.old f.marks f.must) }
    ensures { (levels : List ℕ) → exclude_step n (state_with route.now sets.old levels f) trail.old owed x
        ≡ ran f result route.now sets.new levels trail.new }
{
    let room = trail.len() / 2;
    exclude_refusal(route, sets, f, room, n, owed, x)?;
    Ok(shut_out(sets, f, x, trail))
}

// Require x.
pub fn require(
    route: &[usize; Node::MOST],
    f: Figures,
    n: usize,
    x: usize,
    trail: &mut [u64],
) -> Result<Outcome, Refusal>
    requires { Readable n f.stops route.now }
    ensures { (sets levels : List ℕ) → require_step n (state_with route.now sets levels f) trail.old x
        ≡ ran f result route.now sets levels trail.new }
{
    let room = trail.len() / 2;
    let i = f.records;
    let marks = f.marks;
    require_refusal(route, f, room, n, x)?;
    if bits::has(marks, x) {
        return Ok(Outcome::at(f));
    }
    push(trail, i, first_word(Record::MARKING, x), 0);
    Ok(Outcome::at(Figures {
        marks: bits::with(marks, x),
        records: i + 1,
        ..f
    }))
}

// Settling, its rounds and sets known: the records of it, and the sets become the new ones. With no round nothing changes.
pub fn settle(
    sets: &mut [u64; Node::MOST],
    f: Figures,
    rounds: usize,
    new: &[u64; Node::MOST],
    n: usize,
    trail: &mut [u64],
) -> Result<Outcome, Refusal>
    requires sets_len { (length sets.old ≡ 64) × (length new.now ≡ 64) × (n ≤ 64) × Alike n sets.old new.now }
    requires records_bound { (f.records ≤ room_of trail.old) × (rounds ≡ 0 → new.now ≡ sets.old) }
    ensures { (route levels : List ℕ) → settle_step (state_with route sets.old levels f) trail.old rounds new.now
        ≡ ran f result route sets.new levels trail.new }
{
    if rounds == 0 {
        return Ok(Outcome::at(f));
    }
    let room = trail.len() / 2;
    let i = f.records;
    let more = needed(sets, new, n);
    if room < i + more {
        return Err(Refusal::Room);
    }
    let records = note(trail, i, sets, new, n);
    *sets = *new;
    Ok(Outcome {
        rounds,
        after: Figures { records, ..f },
    })
}

// Open a level.
pub fn level(levels: &mut [usize; State::LEVELS], f: Figures) -> Result<Outcome, Refusal>
    requires { length levels.old ≡ 64 }
    ensures { (route sets t : List ℕ) →
        level_step (state_with route sets levels.old f) t ≡ ran f result route sets levels.new t }
{
    let d = f.depth;
    if State::LEVELS <= d {
        return Err(Refusal::Depth);
    }
    levels[d] = f.records;
    Ok(Outcome::at(Figures { depth: d + 1, ..f }))
}

// Oblige x, placed or not.
pub fn oblige(f: Figures, n: usize, x: usize, trail: &mut [u64]) -> Result<Outcome, Refusal>
    requires { n ≤ 64 }
    ensures { (route sets levels : List ℕ) → oblige_step n (state_with route sets levels f) trail.old x
        ≡ ran f result route sets levels trail.new }
{
    let room = trail.len() / 2;
    let i = f.records;
    let must = f.must;
    oblige_refusal(f, room, n, x)?;
    if bits::has(must, x) {
        return Ok(Outcome::at(f));
    }
    push(trail, i, first_word(Record::OBLIGING, x), 0);
    Ok(Outcome::at(Figures {
        must: bits::with(must, x),
        records: i + 1,
        ..f
    }))
}

// No record undone.
fn untouched(f: Figures) -> Undone
    ensures { result ≡ record { fits = true; stops = f.stops; marks = f.marks; must = f.must; legs = 0 } }
{
    Undone {
        fits: true,
        stops: f.stops,
        marks: f.marks,
        must: f.must,
        legs: 0,
    }
}

// The last level dropped, once the records above it are undone: the state before it.
fn drop_level(levels: &mut [usize; State::LEVELS], f: Figures, u: Undone) -> Outcome
    requires { (0 < f.depth) × (f.depth ≤ 64) × (length levels.old ≡ 64) }
    ensures { (stops places route sets t : List ℕ)
        → answered 0 (dropped (state_with stops places levels.old f) (undid u route sets).1) t ≡ ran f (Ok result) route sets levels.new t }
{
    let d = f.depth - 1;
    let base = levels[d];
    levels[d] = 0;
    Outcome::at(Figures {
        stops: u.stops,
        marks: u.marks,
        must: u.must,
        depth: d,
        records: base,
    })
}

// Step back: undo to the last level and drop it. Copies of route and sets are kept to put back, since a record that does not fit refuses all. Where the
// level has no record, as in most vans of a fleet, nothing is copied.
pub fn back(
    route: &mut [usize; Node::MOST],
    sets: &mut [u64; Node::MOST],
    levels: &mut [usize; State::LEVELS],
    f: Figures,
    n: usize,
    trail: &[u64],
) -> Result<Outcome, Refusal>
    requires sound { Sound n (board route.old f.stops sets.old f.marks f.must) × (length levels.old ≡ 64) }
    requires trail_value { form_with n (state_with route.old sets.old levels.old f) (room_of trail.now) ≡ true }
    ensures { back_step n (state_with route.old sets.old levels.old f) trail.now
        ≡ ran f result route.new sets.new levels.new trail.now }
{
    let depth = f.depth;
    if depth < 1 {
        return Err(Refusal::Depth);
    }
    let base = levels[depth - 1];
    if base == f.records {
        return Ok(drop_level(levels, f, untouched(f)));
    }
    let stops = *route;
    let places = *sets;
    let u = undo_many(route, sets, f, n, base, trail);
    if !u.fits {
        *route = stops;
        *sets = places;
        return Err(Refusal::Misfit);
    }
    Ok(drop_level(levels, f, u))
}
