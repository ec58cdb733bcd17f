// The program `trial`: a caller of the planner, as README shows it. On a sheet from standard input it tries a place that leaves the fleet alive, and
// one that leaves it dead, that one with every level open too, and tells the first van after each.
#![tactic(auto)]

ghost use Rattle.std.specs.Prelude.{◌≡◌, ◌<◌};
ghost use Rattle.rules.specs.Numbers.{most_vans};
ghost use Rattle.trial.specs.Tried.{tried_of};

use board::State;
use fleet::Fleet;
use intake::read_full;
use listing::put_number;
use rules::Step;
use std::io;

// Tries to place x after p in a van: the fleet with it, that van settled, if nothing was refused and the fleet is alive; otherwise the caller's own.
fn try_place(sheet: &[u8], fleet: Fleet, trail: &mut [u64], van: usize, p: usize, x: usize) -> Fleet
    requires { van < most_vans }
    ensures { tried_of sheet.now fleet trail.old van p x ≡ (result, trail.new) }
{
    let level = planner::step(sheet, fleet, trail, Step::LEVEL, 0, 0);
    if level.answer.is_err() {
        return fleet;
    }
    let word = Step::VAN * van;
    let placed = planner::step(sheet, level.fleet, trail, word + Step::PLACE, p, x);
    let settled = planner::step(sheet, placed.fleet, trail, word + Step::SETTLE, 0, 0);
    let alive = planner::verdict(sheet, settled.fleet).unwrap_or(false);
    if placed.answer.is_ok() & settled.answer.is_ok() & alive {
        return settled.fleet;
    }
    let back = planner::step(sheet, settled.fleet, trail, Step::BACK, 0, 0);
    back.fleet
}

// The fleet with every level open.
fn deepest(sheet: &[u8], fleet: Fleet, trail: &mut [u64]) -> Fleet {
    let mut deep = fleet;
    for _ in 0..State::LEVELS {
        deep = planner::step(sheet, deep, trail, Step::LEVEL, 0, 0).fleet;
    }
    deep
}

// A number, and what follows it.
fn put(rt: &impl Print, v: usize, after: &[u8]) -> io::Result<()> {
    let mut digits = [0u8; 20];
    let used = put_number(&mut digits, 0, v as u64);
    if used <= 20 {
        rt.write_all(&digits[..used])?;
    }
    rt.write_all(after)
}

// A line: how many stops, levels and records the first van has.
fn tell(rt: &impl Print, name: &[u8], fleet: Fleet) -> io::Result<()> {
    let one = &fleet.vans[0];
    rt.write_all(name)?;
    put(rt, one.stops, b" stops ")?;
    put(rt, one.depth, b" levels ")?;
    put(rt, one.records, b" records\n")
}

// A trial that leaves the round dead: with a level to open, and with none left.
fn try_dead(rt: &impl Print, sheet: &[u8], fleet: Fleet, trail: &mut [u64]) -> io::Result<()> {
    let left = try_place(sheet, fleet, trail, 0, 0, 2);
    tell(rt, b"dead: ", left)?;
    let deep = deepest(sheet, fleet, trail);
    let shut = try_place(sheet, deep, trail, 0, 0, 2);
    tell(rt, b"dead, every level open: ", shut)
}

// A trial that leaves it alive, and those. With 1 placed after 0, 2 after 0 is a transfer in wrong order.
fn run(rt: &impl Print, sheet: &[u8], trail: &mut [u64]) -> io::Result<()> {
    let opened = planner::open(sheet).unwrap_or(Fleet::none());
    let kept = try_place(sheet, opened, trail, 0, 0, 2);
    tell(rt, b"alive: ", kept)?;
    let wrong = planner::step(sheet, opened, trail, Step::PLACE, 0, 1);
    try_dead(rt, sheet, wrong.fleet, trail)
}

fn main(rt: HostRuntime) -> io::Result<()> {
    let mut bytes = [0u8; 400];
    let mut trail = [0u64; 64];
    let n = read_full(&mut rt.stdin(), &mut bytes)?;
    run(&rt, &bytes[..n], &mut trail)
}
