// A set of places in a 64-bit word: bit p says that p is a member. No set has a place past 63.
#![tactic(auto)]

ghost use Rattle.std.specs.Prelude.{◌≡◌, ◌<◌, ◌≤◌};
ghost use Rattle.std.specs.Iterator.{at_most};
ghost use Rattle.std.specs.Int.Count.{ones};
ghost use Rattle.bits.specs.Places.{has, with, without, minus, join, within, lowest};
ghost use Rattle.bits.specs.Next.{takes_least};

// The places of a word.
const PLACES: usize = 64;

// Whether p is a member of w.
pub fn has(w: u64, p: usize) -> bool
    ensures { result ≡ has w p }
{
    if p < PLACES { holds(w, p) } else { false }
}

// The same, of a place that is known to be one: no test.
pub fn holds(w: u64, p: usize) -> bool
    requires { p < 64 }
    ensures { result ≡ has w p }
{
    (w >> p) % 2 == 1
}

// w with p as a member too.
pub fn with(w: u64, p: usize) -> u64
    ensures { result ≡ with w p }
{
    if p < PLACES { put(w, p) } else { w }
}

// The same, of a place that is known to be one.
pub fn put(w: u64, p: usize) -> u64
    requires { p < 64 }
    ensures { result ≡ with w p }
{
    w | (1u64 << p)
}

// w without p.
pub fn without(w: u64, p: usize) -> u64
    ensures { result ≡ without w p }
{
    if p < PLACES { take(w, p) } else { w }
}

// The same, of a place that is known to be one.
pub fn take(w: u64, p: usize) -> u64
    requires { p < 64 }
    ensures { result ≡ without w p }
{
    w & !(1u64 << p)
}

// The members of a that are none of b.
pub fn minus(a: u64, b: u64) -> u64
    ensures { result ≡ minus a b }
{
    a & !b
}

// The members of both.
pub fn join(a: u64, b: u64) -> u64
    ensures { result ≡ join a b }
{
    a | b
}

// Whether each member of a is one of b.
pub fn within(a: u64, b: u64) -> bool
    ensures { result ≡ within a b }
{
    a & b == a
}

// How many members w has.
pub fn count(w: u64) -> usize
    ensures { (result ≡ ones w) × (result ≤ 64) }
{
    u64::count_ones(w) as usize
}

// The least member of w, 64 where it has none.
pub fn lowest(w: u64) -> usize
    ensures { (result ≡ lowest w) × (result ≤ 64) }
{
    u64::trailing_zeros(w) as usize
}

// w without its least member.
pub fn rest(w: u64) -> u64
    requires { 0 < w }
    ensures { result ≡ without w (lowest w) }
{
    w & (w - 1)
}

// The members of a set that are still to come, the least first.
#[derive(Clone, Copy)]
pub struct Each {
    pub left: u64,
}

impl Each {
    pub fn of(w: u64) -> Each
        ensures { result.left ≡ w }
    {
        Each { left: w }
    }
}

impl Iterator for Each {
    type Item = usize;

    ghost next_gives = { takes_least };

    ghost remaining = { λ m. at_most m.left };

    fn next(&mut self) -> Option<usize> {
        if self.left == 0 {
            return None;
        }
        let least = lowest(self.left);
        self.left = rest(self.left);
        Some(least)
    }
}
