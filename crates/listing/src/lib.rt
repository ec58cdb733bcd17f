// The program's lines, made in a buffer: each function puts its text from a place on, and answers the place after it.
#![tactic(auto)]

ghost use Rattle.std.specs.Prelude.{◌≡◌, ◌∷◌, [], ◌+◌, ◌*◌, ◌/◌, ◌%◌, ◌≤◌, ◌<◌, length, take};
ghost use Rattle.listing.specs.Text.{decimal, bytes, three_fields, step_line, stop_text, stops_text, route_line, refused_line};
ghost use Rattle.listing.specs.Put.{Put};

use rules::Node;

// Three numbers of a line.
#[derive(Clone, Copy)]
pub struct Three {
    pub first: u64,
    pub second: u64,
    pub third: u64,
}

// A text as it is. Every caller names its text here, so that the compiler knows its bytes and stores several at once.
fn put_text(out: &mut [u8], at: usize, text: &[u8]) -> usize
    requires { at + length text.now ≤ length out.old }
    ensures { Put out.old at text.now result out.new }
{
    let end = at + text.len();
    out[at..end].copy_from_slice(text);
    end
}

fn put_byte(out: &mut [u8], at: usize, b: u8) -> usize
    requires { at < length out.old }
    ensures { Put out.old at (b ∷ []) result out.new }
{
    out[at] = b;
    at + 1
}

// Two digits, the first of them 0 for a number below ten.
fn put_pair(out: &mut [u8], at: usize, v: u64) -> usize
    requires { (v < 100) × (at + 2 ≤ length out.old) }
    ensures { Put out.old at ((48 + v / 10) ∷ (48 + v % 10) ∷ []) result out.new }
{
    let i = put_byte(out, at, 48 + (v / 10) as u8);
    put_byte(out, i, 48 + (v % 10) as u8)
}

// A number below 100 in decimal.
fn put_short(out: &mut [u8], at: usize, v: u64) -> usize
    requires { (v < 100) × (at + 2 ≤ length out.old) }
    ensures { Put out.old at (decimal v) result out.new }
{
    if v < 10 {
        put_byte(out, at, 48 + v as u8)
    } else {
        put_pair(out, at, v)
    }
}

// Any number in decimal: the digits of its hundredth first.
fn put_long(out: &mut [u8], at: usize, v: u64) -> usize
    requires { at + 20 ≤ length out.old }
    ensures { Put out.old at (decimal v) result out.new }
{
    if v < 100 {
        return put_short(out, at, v);
    }
    let last = put_long(out, at, v / 100);
    put_pair(out, last, v % 100)
}

// A number in decimal. Nearly all have at most four digits: those need no recursion, so the compiler can put them in line.
pub fn put_number(out: &mut [u8], at: usize, v: u64) -> usize
    requires { at + 20 ≤ length out.old }
    ensures { Put out.old at (decimal v) result out.new }
{
    if v < 100 {
        return put_short(out, at, v);
    }
    if v < 10000 {
        let i = put_short(out, at, v / 100);
        return put_pair(out, i, v % 100);
    }
    put_long(out, at, v)
}

// The first three numbers of a step's line, and a space (32).
fn put_head(out: &mut [u8], at: usize, head: Three) -> usize
    requires { at + 80 ≤ length out.old }
    ensures { Put out.old at
        (three_fields (bytes "step") head.first (bytes "answer") head.second (bytes "open") head.third 32) result out.new }
{
    let a = put_text(out, at, b"step ");
    let b = put_number(out, a, head.first);
    let c = put_text(out, b, b" answer ");
    let d = put_number(out, c, head.second);
    let e = put_text(out, d, b" open ");
    let f = put_number(out, e, head.third);
    put_byte(out, f, b' ')
}

// The last three, and the end of the line (10).
fn put_tail(out: &mut [u8], at: usize, tail: Three) -> usize
    requires { at + 84 ≤ length out.old }
    ensures { Put out.old at
        (three_fields (bytes "records") tail.first (bytes "rounds") tail.second (bytes "alive") tail.third 10) result out.new }
{
    let a = put_text(out, at, b"records ");
    let b = put_number(out, a, tail.first);
    let c = put_text(out, b, b" rounds ");
    let d = put_number(out, c, tail.second);
    let e = put_text(out, d, b" alive ");
    let f = put_number(out, e, tail.third);
    put_byte(out, f, b'\n')
}

// The line of a step: its number from 1, refusal or 0, open places in all; records, striking rounds, 1 for alive.
pub fn put_step(out: &mut [u8], at: usize, head: Three, tail: Three) -> usize
    requires { at + 200 ≤ length out.old }
    ensures { Put out.old at
        (step_line head.first head.second head.third tail.first tail.second tail.third) result out.new }
{
    let i = put_head(out, at, head);
    put_tail(out, i, tail)
}

// The one line of a refused sheet.
pub fn put_refused(out: &mut [u8], at: usize, answer: u64) -> usize
    requires { at + 29 ≤ length out.old }
    ensures { Put out.old at (refused_line answer) result out.new }
{
    let i = put_text(out, at, b"refused ");
    let j = put_number(out, i, answer);
    put_byte(out, j, b'\n')
}

// One stop of the route line: a space and its number.
fn put_stop(out: &mut [u8], at: usize, x: u64) -> usize
    requires { at + 21 ≤ length out.old }
    ensures { Put out.old at (stop_text x) result out.new }
{
    let i = put_byte(out, at, b' ');
    put_number(out, i, x)
}

// The stops of the route line.
fn put_stops(out: &mut [u8], at: usize, route: &[usize; Node::MOST], stops: usize) -> usize
    requires { (stops ≤ 64) × (length route.now ≡ 64) × (at + 21 * stops ≤ length out.old) }
    ensures { Put out.old at (stops_text (take stops route.now)) result out.new }
{
    let mut next = at;
    for i in 0..stops {
        next = put_stop(out, next, route[i] as u64);
    }
    next
}

// The line of the route.
pub fn put_route(out: &mut [u8], at: usize, route: &[usize; Node::MOST], stops: usize) -> usize
    requires { (stops ≤ 64) × (length route.now ≡ 64) × (at + 1350 ≤ length out.old) }
    ensures { Put out.old at (route_line (take stops route.now)) result out.new }
{
    let i = put_text(out, at, b"route");
    let j = put_stops(out, i, route, stops);
    put_byte(out, j, b'\n')
}
