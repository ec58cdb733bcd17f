// The program `probe`: the planner's face for anyone who wants to try it on anything. Cases on standard input, a line of numbers each.
#![tactic(auto)]

ghost use Rattle.std.specs.Prelude.{◌≡◌, ◌≤◌, [], ◌∷◌, IfOk};
ghost use Rattle.rules.specs.Refused.{number_of};
ghost use Rattle.probe.specs.Told.{told_of};

use board::State;
use fleet::Fleet;
use intake::read_full;
use listing::put_number;
use rules::{Node, Refusal};
use std::array::from_fn;
use std::io::{self, Read};
use std::ops::ControlFlow::{self, Break, Continue};

// How much text the buffer holds, and whether to go on.
type Next = ControlFlow<usize, usize>;

// The most bytes of a sheet and words of a trail, and the bytes of what stands before them.
const SHEET: usize = 61440;

const TRAIL: usize = 65536;

const HEAD: usize = 12600;

// What stands before a case's bytes and trail words.
#[derive(Clone, Copy)]
struct Case {
    bytes: usize,
    words: usize,
    question: usize,
    word: usize,
    first: usize,
    second: usize,
    fleet: Fleet,
}

// The i-th word of the bytes, 0 behind their end.
fn word(bytes: &[u8], i: usize) -> u64 {
    let (words, _) = bytes.as_chunks::<8>();
    match words.get(i) {
        Some(w) => u64::from_le_bytes(*w),
        None => 0,
    }
}

fn number(bytes: &[u8], i: usize) -> usize {
    word(bytes, i) as usize
}

// As many numbers as there are nodes, from word `from` on.
fn numbers(bytes: &[u8], from: usize) -> [usize; Node::MOST]
    requires { from ≤ 2000 }
{
    from_fn(|i| number(bytes, from + i))
}

// As many sets, from word `from` on.
fn sets(bytes: &[u8], from: usize) -> [u64; Node::MOST]
    requires { from ≤ 2000 }
{
    from_fn(|i| word(bytes, from + i))
}

// The state whose numbers begin at word `from`; the marks "must go somewhere" stand elsewhere.
fn state_of(head: &[u8], from: usize, must: u64) -> State
    requires { from ≤ 1600 }
{
    State {
        route: numbers(head, from),
        stops: number(head, from + 64),
        sets: sets(head, from + 65),
        marks: word(head, from + 129),
        must,
        levels: numbers(head, from + 130),
        depth: number(head, from + 194),
        records: number(head, from + 195),
    }
}

// Eight states, and behind them the marks "must go somewhere", which the first van holds.
fn fleet_of(head: &[u8]) -> Fleet {
    let mut vans = [State::none(); Fleet::VANS];
    vans[0] = state_of(head, 6, word(head, 1574));
    for j in 1..Fleet::VANS {
        vans[j] = state_of(head, 6 + 196 * j, 0);
    }
    Fleet { vans }
}

fn case_of(head: &[u8]) -> Case {
    Case {
        bytes: number(head, 0),
        words: number(head, 1),
        question: number(head, 2),
        word: number(head, 3),
        first: number(head, 4),
        second: number(head, 5),
        fleet: fleet_of(head),
    }
}

// Writes the first bytes of the buffer.
fn write(rt: &impl Print, out: &[u8], used: usize) -> io::Result<()> {
    if out.len() < used {
        return Ok(());
    }
    rt.write_all(&out[..used])
}

// Writes what the buffer holds if little room is left, and answers how much it then holds.
fn room(rt: &impl Print, out: &[u8], used: usize) -> io::Result<usize>
    ensures { IfOk result (λ held. held ≤ 64000) }
{
    if used <= 64000 {
        return Ok(used);
    }
    write(rt, out, used)?;
    Ok(0)
}

// One byte, as long as there is room.
fn put_byte(out: &mut [u8], at: usize, b: u8) -> usize {
    if at < out.len() {
        out[at] = b;
        return at + 1;
    }
    at
}

// A number, and a space behind it.
fn put(rt: &impl Print, out: &mut [u8], used: usize, v: u64) -> io::Result<usize> {
    let at = room(rt, out, used)?;
    if out.len() < 65536 {
        return Ok(at);
    }
    let next = put_number(out, at, v);
    Ok(put_byte(out, next, b' '))
}

// The line's last space becomes its end.
fn end_line(out: &mut [u8], used: usize) -> usize {
    if used == 0 {
        return 0;
    }
    put_byte(out, used - 1, b'\n')
}

fn put_numbers(rt: &impl Print, out: &mut [u8], used: usize, a: &[usize]) -> io::Result<usize> {
    let mut next = used;
    for x in a {
        next = put(rt, out, next, *x as u64)?;
    }
    Ok(next)
}

fn put_words(rt: &impl Print, out: &mut [u8], used: usize, a: &[u64]) -> io::Result<usize> {
    let mut next = used;
    for x in a {
        next = put(rt, out, next, *x)?;
    }
    Ok(next)
}

fn put_bytes(rt: &impl Print, out: &mut [u8], used: usize, a: &[u8]) -> io::Result<usize> {
    let mut next = put(rt, out, used, a.len() as u64)?;
    for x in a {
        next = put(rt, out, next, u64::from(*x))?;
    }
    Ok(next)
}

fn put_state(rt: &impl Print, out: &mut [u8], used: usize, state: &State) -> io::Result<usize> {
    let a = put_numbers(rt, out, used, &state.route)?;
    let b = put(rt, out, a, state.stops as u64)?;
    let c = put_words(rt, out, b, &state.sets)?;
    let d = put(rt, out, c, state.marks)?;
    let e = put_numbers(rt, out, d, &state.levels)?;
    let f = put(rt, out, e, state.depth as u64)?;
    put(rt, out, f, state.records as u64)
}

// The eight states, and then the marks "must go somewhere".
fn put_fleet(rt: &impl Print, out: &mut [u8], used: usize, fleet: &Fleet) -> io::Result<usize> {
    let mut next = used;
    for van in &fleet.vans {
        next = put_state(rt, out, next, van)?;
    }
    put(rt, out, next, fleet.vans[0].must)
}

// The four numbers of a question that is refused.
fn refused(why: Refusal) -> [usize; 4]
    ensures { result ≡ number_of why ∷ 0 ∷ 0 ∷ 0 ∷ [] }
{
    [why.number(), 0, 0, 0]
}

// A question about a sheet and a fleet: 0 or its refusal, the rounds, the open places, 1 for alive; and the fleet that comes back, or the one that was
// asked about.
fn ask(sheet: &[u8], case: Case, trail: &mut [u64]) -> ([usize; 4], Fleet)
    ensures { told_of sheet.now case trail.old ≡ (result.0, result.1, trail.new) }
{
    let fleet = case.fleet;
    match case.question {
        0 => match planner::open(sheet) {
            Ok(fresh) => ([0; 4], fresh),
            Err(e) => (refused(e), Fleet::none()),
        },
        1 => {
            let s = planner::step(sheet, fleet, trail, case.word, case.first, case.second);
            match s.answer {
                Ok(rounds) => ([0, rounds, 0, 0], s.fleet),
                Err(e) => (refused(e), s.fleet),
            }
        },
        2 => match planner::open_places(sheet, fleet) {
            Ok(places) => ([0, 0, places, 0], fleet),
            Err(e) => (refused(e), fleet),
        },
        _ => match planner::verdict(sheet, fleet) {
            Ok(alive) => ([0, 0, 0, usize::from(alive)], fleet),
            Err(e) => (refused(e), fleet),
        },
    }
}

// The line of a case.
fn answer(
    rt: &impl Print,
    sheet: &[u8],
    case: Case,
    trail: &mut [u64],
    out: &mut [u8],
    used: usize,
) -> io::Result<usize> {
    if case.question == 4 {
        let a = put_bytes(rt, out, used, planner::section(sheet, case.word))?;
        return Ok(end_line(out, a));
    }
    let (numbers, fleet) = ask(sheet, case, trail);
    let a = put_numbers(rt, out, used, &numbers)?;
    let b = put_fleet(rt, out, a, &fleet)?;
    let c = put_words(rt, out, b, trail)?;
    Ok(end_line(out, c))
}

// The words of the trail out of their bytes.
fn unpack(trail: &mut [u64], bytes: &[u8]) {
    for (i, w) in trail.iter_mut().enumerate() {
        *w = word(bytes, i);
    }
}

// The line of a case that cannot be read, and the end.
fn bad(rt: &impl Print, out: &mut [u8], used: usize) -> io::Result<Next> {
    let mut next = room(rt, out, used)?;
    for b in b"bad case\n" {
        next = put_byte(out, next, *b);
    }
    Ok(Break(next))
}

// Whether the input has n bytes more, which then stand in front.
fn fill(input: &mut impl Read, buf: &mut [u8], n: usize) -> io::Result<bool> {
    if buf.len() < n {
        return Ok(false);
    }
    let got = read_full(input, &mut buf[..n])?;
    Ok(got == n)
}

// The line of a case whose bytes and trail words were read.
fn line(
    rt: &impl Print,
    bytes: &[u8],
    packed: &[u8],
    case: Case,
    trail: &mut [u64],
    out: &mut [u8],
    used: usize,
) -> io::Result<Next> {
    let b = case.bytes;
    let t = case.words;
    if bytes.len() < b || trail.len() < t {
        return bad(rt, out, used);
    }
    let part: &mut [u64] = &mut trail[..t];
    unpack(part, packed);
    let next = answer(rt, &bytes[..b], case, part, out, used)?;
    Ok(Continue(next))
}

// The rest of a case: its bytes, its trail words, its line.
fn rest(
    rt: &impl Print,
    input: &mut impl Read,
    case: Case,
    out: &mut [u8],
    used: usize,
) -> io::Result<Next> {
    let mut bytes = [0u8; SHEET];
    let mut packed = [0u8; 8 * TRAIL];
    let mut trail = [0u64; TRAIL];
    if TRAIL < case.words || 4 < case.question {
        return bad(rt, out, used);
    }
    if !fill(input, &mut bytes, case.bytes)? {
        return bad(rt, out, used);
    }
    if !fill(input, &mut packed, 8 * case.words)? {
        return bad(rt, out, used);
    }
    line(rt, &bytes, &packed, case, &mut trail, out, used)
}

// One case.
fn turn(rt: &impl Print, input: &mut impl Read, out: &mut [u8], used: usize) -> io::Result<Next> {
    let mut head = [0u8; HEAD];
    let n = read_full(input, &mut head)?;
    if n == 0 {
        return Ok(Break(used));
    }
    if n < HEAD {
        return bad(rt, out, used);
    }
    let case = case_of(&head);
    rest(rt, input, case, out, used)
}

// Nothing says that an input ends, so the turns are counted, up to a number that no run uses up.
fn run(rt: &impl Print, input: &mut impl Read, out: &mut [u8]) -> io::Result<()> {
    let mut used = 0;
    for _ in 0..u64::MAX {
        match turn(rt, input, out, used)? {
            Continue(held) => used = held,
            Break(held) => return write(rt, out, held),
        }
    }
    write(rt, out, used)
}

fn main(rt: HostRuntime) -> io::Result<()> {
    let mut out = [0u8; 65536];
    run(&rt, &mut rt.stdin(), &mut out)
}
