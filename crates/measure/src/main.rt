// The program `measure`: one of the planner's calls, many times over. What to send it stands at the head of bench/plain.c.
#![tactic(auto)]

ghost use Rattle.std.specs.Prelude.{◌<◌, ◌≤◌, length};

use board::State;
use dock::{TEXT, TRAIL};
use fleet::Fleet;
use intake::read_full;
use listing::put_number;
use rules::{Node, Step};
use std::io;

// The number of a text's bytes and their sum; the text is the first bytes of the buffer.
fn weigh(out: &[u8], used: usize) -> u64
    requires { used ≤ length out.now }
{
    let mut sum = 0u32;
    for b in &out[..used] {
        sum = sum.wrapping_add(u32::from(*b));
    }
    (used as u64).wrapping_add(u64::from(sum))
}

// Operation 7: the listing, weighed.
fn listing_of(sheet: &[u8], trail: &mut [u64], out: &mut [u8; TEXT]) -> u64 {
    let used = dock::lines::list(sheet, trail, out);
    weigh(out, used)
}

// A step that is measured.
#[derive(Clone, Copy)]
struct Task {
    word: usize,
    first: usize,
    second: usize,
}

// A step of the first van, or of all, that names no node.
fn bare_task(kind: usize) -> Task {
    Task {
        word: kind,
        first: 0,
        second: 0,
    }
}

// One step: its rounds or its refusal, and of the fleet the stops and records of every state. Each stands at a place that the compiler knows, so that no
// state is copied for the sum.
fn one_step(sheet: &[u8], fleet: Fleet, trail: &mut [u64], task: Task) -> u64 {
    let s = planner::step(sheet, fleet, trail, task.word, task.first, task.second);
    let number = match s.answer {
        Ok(rounds) => rounds,
        Err(refusal) => refusal.number(),
    };
    let vans = s.fleet.vans;
    let mut sum = number as u64;
    for j in 0..Fleet::VANS {
        let one = vans[j];
        sum = sum.wrapping_add((one.stops as u64).wrapping_add(one.records as u64));
    }
    sum
}

// Operation 1: the stops of all states, or the refusal.
fn one_opening(sheet: &[u8]) -> u64 {
    match planner::open(sheet) {
        Ok(fleet) => {
            let mut sum = 0u64;
            for one in &fleet.vans {
                sum = sum.wrapping_add(one.stops as u64);
            }
            sum
        },
        Err(e) => e.number() as u64,
    }
}

// Operation 6: 1 for alive, or the refusal.
fn one_verdict(sheet: &[u8], fleet: Fleet) -> u64 {
    match planner::verdict(sheet, fleet) {
        Ok(alive) => u64::from(alive),
        Err(e) => e.number() as u64,
    }
}

// Operation 8: the open places, or the refusal.
fn one_count(sheet: &[u8], fleet: Fleet) -> u64 {
    match planner::open_places(sheet, fleet) {
        Ok(places) => places as u64,
        Err(e) => e.number() as u64,
    }
}

// The stop before the end of a van's route: its last ward, or the start.
fn last_stop(one: &State) -> usize {
    match one.stops {
        2..=Node::MOST => one.route[one.stops - 2],
        _ => 0,
    }
}

// The van whose turn ward x is, of v vans, and at most the last there can be.
fn turn_of(x: usize, v: usize) -> usize
    ensures { result < 8 }
{
    if x < 1 || v < 1 {
        return 0;
    }
    let j = (x - 1) % v;
    if j < Fleet::VANS { j } else { 0 }
}

// Placing ward x, which the vans get by turns, after the last ward of its van. There is no ward 0, so that is refused.
fn ward_task(fleet: &Fleet, v: usize, x: usize) -> Task {
    let j = turn_of(x, v);
    let last = if x == 0 {
        usize::MAX
    } else {
        last_stop(&fleet.vans[j])
    };
    Task {
        word: Step::VAN * j + Step::PLACE,
        first: last,
        second: x,
    }
}

// Places the wards from 1 on below `end`, each in its turn; where one is refused, the fleet is as it was.
fn build(sheet: &[u8], fleet: &mut Fleet, v: usize, trail: &mut [u64], end: usize) {
    for x in 1..end {
        let task = ward_task(fleet, v, x);
        let s = planner::step(sheet, *fleet, trail, task.word, task.first, task.second);
        *fleet = s.fleet;
    }
}

fn set_byte(sheet: &mut [u8], at: usize, b: u8) {
    if at < sheet.len() {
        sheet[at] = b;
    }
}

// A number below 1,000 into the low half of the word at a place of the sheet; nothing at place 0.
fn mark(sheet: &mut [u8], spot: usize, v: usize)
    requires { (spot ≤ 300000) × (v < 1000) }
{
    if spot == 0 {
        return;
    }
    set_byte(sheet, spot, (v % 256) as u8);
    set_byte(sheet, spot + 1, (v / 256) as u8);
}

// Where seconds(0, 0) stands, or 0 for a sheet that is refused.
fn diagonal(sheet: &[u8]) -> usize
    ensures { result ≤ 300000 }
{
    match day::checked(sheet) {
        Ok(at) => 4 * at.seconds,
        Err(_) => 0,
    }
}

// The sum of one operation over all times, each on a sheet with another number in its mark.
fn repeat<F: FnMut(&[u8]) -> u64>(count: usize, sheet: &mut [u8], mut one: F) -> u64
    requires { F.IsAlwaysCallable one }
{
    let spot = diagonal(sheet);
    let mut sum = 0u64;
    for i in 0..count {
        mark(sheet, spot, i % 1000);
        sum = sum.wrapping_add(one(sheet));
    }
    sum
}

// The same of a step: a closure that holds the fleet would copy it once more each time.
fn repeat_step(count: usize, sheet: &mut [u8], fleet: Fleet, trail: &mut [u64], task: Task) -> u64 {
    let spot = diagonal(sheet);
    let mut sum = 0u64;
    for i in 0..count {
        mark(sheet, spot, i % 1000);
        sum = sum.wrapping_add(one_step(sheet, fleet, trail, task));
    }
    sum
}

// The number of eight bytes at a place.
fn number(bytes: &[u8], at: usize) -> usize
    requires { (at ≤ 2) × (16 ≤ length bytes.now) }
{
    words::word(bytes, at) as usize + 4294967296 * (words::word(bytes, at + 1) as usize)
}

// Below which ward the fleet of an operation is built.
fn end_of(operation: usize, n: usize) -> usize {
    let stops = match operation {
        5 => n,
        2 | 4 | 6 | 8 | 9 => n / 2,
        _ => 0,
    };
    if stops < 1 { 0 } else { stops - 1 }
}

// Makes of a fresh fleet the one that an operation starts from; stepping back undoes a level opened before all.
fn start(operation: usize, sheet: &[u8], fleet: &mut Fleet, v: usize, trail: &mut [u64], n: usize) {
    if operation == 9 {
        let level = planner::step(sheet, *fleet, trail, Step::LEVEL, 0, 0);
        *fleet = level.fleet;
    }
    build(sheet, fleet, v, trail, end_of(operation, n));
}

// The step of an operation: the next ward after the half, stepping back, or settling the first van.
fn task_of(operation: usize, fleet: &Fleet, v: usize, n: usize) -> Task {
    let half = n / 2;
    match operation {
        2 => ward_task(fleet, v, if half < 1 { 0 } else { half - 1 }),
        9 => bare_task(Step::BACK),
        _ => bare_task(Step::SETTLE),
    }
}

fn write(rt: &impl Print, out: &[u8], used: usize) -> io::Result<()> {
    if out.len() < used {
        return Ok(());
    }
    rt.write_all(&out[..used])
}

// The one line: `result` and the sum.
fn tell(rt: &impl Print, sum: u64) -> io::Result<()> {
    let mut line = [0u8; 32];
    let used = put_number(&mut line, 0, sum);
    rt.write_all(b"result ")?;
    write(rt, &line, used)?;
    rt.write_all(b"\n")
}

// One operation on a sheet; the listing alone for operation 0.
fn measure(rt: &impl Print, operation: usize, count: usize, sheet: &mut [u8]) -> io::Result<()> {
    let mut trail = [0u64; TRAIL];
    let mut out = [0u8; TEXT];
    match operation {
        0 => {
            let used = dock::lines::list(sheet, &mut trail, &mut out);
            write(rt, &out, used)
        },
        1 => tell(rt, repeat(count, sheet, |s| one_opening(s))),
        7 => tell(
            rt,
            repeat(count, sheet, |s| listing_of(s, &mut trail, &mut out)),
        ),
        2..=9 => repeat_on(rt, operation, count, sheet, &mut trail),
        _ => rt.write_all(b"cannot\n"),
    }
}

// Words of the trail that v vans are lent.
fn lent_words(v: usize) -> usize
    ensures { result ≤ 64480 }
{
    if v < Fleet::VANS {
        return TRAIL / Fleet::VANS * v;
    }
    TRAIL
}

// One of the operations 2 to 6, 8 and 9, on a sheet that opens.
fn repeat_on(
    rt: &impl Print,
    operation: usize,
    count: usize,
    sheet: &mut [u8],
    trail: &mut [u64],
) -> io::Result<()> {
    let (Ok(fresh), Ok(at)) = (planner::open(sheet), day::checked(sheet)) else {
        return rt.write_all(b"cannot\n");
    };
    let n = at.nodes;
    let v = at.vans;
    let words = lent_words(v);
    if trail.len() < words {
        return Ok(());
    }
    let lent: &mut [u64] = &mut trail[..words];
    let mut fleet = fresh;
    start(operation, sheet, &mut fleet, v, lent, n);
    let task = task_of(operation, &fleet, v, n);
    let sum = match operation {
        6 => repeat(count, sheet, |s| one_verdict(s, fleet)),
        8 => repeat(count, sheet, |s| one_count(s, fleet)),
        _ => repeat_step(count, sheet, fleet, lent, task),
    };
    tell(rt, sum)
}

fn main(rt: HostRuntime) -> io::Result<()> {
    let mut input = [0u8; 61460];
    let n = read_full(&mut rt.stdin(), &mut input)?;
    if n < 16 {
        return rt.write_all(b"cannot\n");
    }
    let operation = number(&input, 0);
    let count = number(&input, 2);
    measure(&rt, operation, count, &mut input[16..n])
}
