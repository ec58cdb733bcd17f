// The words of a day sheet, and what those of an entry must be.
#![tactic(auto)]

ghost use Rattle.std.specs.Prelude.{◌≡◌, ◌+◌, ◌*◌, ◌<◌, ◌≤◌};
ghost use Rattle.laws.specs.Basic.{all_below};
ghost use Rattle.rules.specs.Class.{one_bit};
ghost use Rattle.rules.specs.Day.{is_inner};
ghost use Rattle.words.specs.Word.{size, words, word_at, Reads, three_at, four_at, limits_ok, node_ok, second_ok, job_ok, limits_at_ok, node_at_ok, job_at_ok, entry_ok};
ghost use Rattle.words.specs.Quarters.{or_of_four};

// How many words an entry has.
#[derive(Clone, Copy)]
pub struct Entry;

impl Entry {
    pub const VAN: usize = 3;

    pub const NODE: usize = 4;

    pub const JOB: usize = 4;

    pub const STEP: usize = 3;
}

// An entry's first words.
#[derive(Clone, Copy)]
pub struct Three {
    pub first: u32,
    pub second: u32,
    pub third: u32,
}

#[derive(Clone, Copy)]
pub struct Four {
    pub first: u32,
    pub second: u32,
    pub third: u32,
    pub fourth: u32,
}

// The i-th word of a sheet: one load, with no test, since the caller knows that it is there.
#[tactic(auto, unfolding(crate::specs::Word::word_at))]
pub fn word(s: &[u8], i: usize) -> u32
    requires { i < words s.now }
    ensures { Reads (word_at s.now i) result }
{
    let p = 4 * i;
    let a = u32::from(s[p]);
    let b = u32::from(s[p + 1]);
    let c = u32::from(s[p + 2]);
    let d = u32::from(s[p + 3]);
    a + 256 * b + 65536 * c + 16777216 * d
}

// The first three words of the i-th entry of a section whose entries begin at word `from` and have `width` words.
fn three_words(s: &[u8], from: usize, width: usize, i: usize) -> Three
    requires { (3 ≤ width) × (from + width * i + width ≤ words s.now) }
    ensures { result ≡ three_at s.now from width i }
{
    let p = from + width * i;
    Three {
        first: word(s, p),
        second: word(s, p + 1),
        third: word(s, p + 2),
    }
}

// The first four.
pub fn four_words(s: &[u8], from: usize, width: usize, i: usize) -> Four
    requires { (4 ≤ width) × (from + width * i + width ≤ words s.now) }
    ensures { result ≡ four_at s.now from width i }
{
    let w = three_words(s, from, width, i);
    Four {
        first: w.first,
        second: w.second,
        third: w.third,
        fourth: word(s, from + width * i + 3),
    }
}

// Whether a number is one of the eight bits.
#[tactic(auto, unfolding(rules::specs::Class::one_bit, laws::specs::Basic::any_below))]
fn one_bit(bit: u32) -> bool
    ensures { result ≡ one_bit bit }
{
    (bit == 1)
        | (bit == 2)
        | (bit == 4)
        | (bit == 8)
        | (bit == 16)
        | (bit == 32)
        | (bit == 64)
        | (bit == 128)
}

fn limits_ok(capacity: u32, limit: u32, bit: u32) -> bool
    ensures { result ≡ limits_ok capacity limit bit }
{
    (capacity <= 1000) & (limit <= 1000000) & one_bit(bit)
}

fn node_ok(earliest: u32, latest: u32, service: u32, set: u32) -> bool
    ensures { result ≡ node_ok earliest latest service set }
{
    (earliest <= latest) & (latest <= 1000000) & (service <= 1000000) & ((1 <= set) & (set <= 255))
}

#[tactic(auto, unfolding(rules::specs::Day::is_inner))]
fn is_inner(n: u32, x: u32) -> bool
    requires { 2 ≤ n }
    ensures { result ≡ is_inner n x }
{
    (1 <= x) & (x < n - 1)
}

// What a job says second: a transfer its other node, the kinds 1 and 2 nothing. One branch, which costs less than both tests.
fn second_ok(n: u32, kind: u32, a: u32, b: u32) -> bool
    requires { 2 ≤ n }
    ensures { result ≡ second_ok n kind a b }
{
    if kind == 3 {
        is_inner(n, b) & (a != b)
    } else {
        ((kind == 1) | (kind == 2)) & (b == 0)
    }
}

fn job_ok(n: u32, kind: u32, a: u32, b: u32, load: u32) -> bool
    requires { 2 ≤ n }
    ensures { result ≡ job_ok n kind a b load }
{
    is_inner(n, a) & ((1 <= load) & (load <= 1000)) & second_ok(n, kind, a, b)
}

fn limits_at_ok(s: &[u8], from: usize, i: usize) -> bool
    requires { from + size.van * i + size.van ≤ words s.now }
    ensures { result ≡ limits_at_ok s.now from i }
{
    let w = three_words(s, from, Entry::VAN, i);
    limits_ok(w.first, w.second, w.third)
}

pub fn all_limits_ok(s: &[u8], from: usize, v: usize) -> bool
    requires { from + size.van * v ≤ words s.now }
    ensures { result ≡ all_below v (limits_at_ok s.now from) }
{
    (0..v).all(|i| limits_at_ok(s, from, i))
}

fn node_at_ok(s: &[u8], from: usize, i: usize) -> bool
    requires { from + size.node * i + size.node ≤ words s.now }
    ensures { result ≡ node_at_ok s.now from i }
{
    let w = four_words(s, from, Entry::NODE, i);
    node_ok(w.first, w.second, w.third, w.fourth)
}

pub fn nodes_ok(s: &[u8], from: usize, n: usize) -> bool
    requires { from + size.node * n ≤ words s.now }
    ensures { result ≡ all_below n (node_at_ok s.now from) }
{
    (0..n).all(|i| node_at_ok(s, from, i))
}

fn job_at_ok(s: &[u8], n: u32, from: usize, i: usize) -> bool
    requires { (2 ≤ n) × (from + size.job * i + size.job ≤ words s.now) }
    ensures { result ≡ job_at_ok s.now n from i }
{
    let w = four_words(s, from, Entry::JOB, i);
    job_ok(n, w.first, w.second, w.third, w.fourth)
}

pub fn jobs_ok(s: &[u8], n: u32, from: usize, m: usize) -> bool
    requires { (2 ≤ n) × (from + size.job * m ≤ words s.now) }
    ensures { result ≡ all_below m (job_at_ok s.now n from) }
{
    (0..m).all(|i| job_at_ok(s, n, from, i))
}

fn entry_ok(s: &[u8], from: usize, i: usize) -> bool
    requires { from + i < words s.now }
    ensures { result ≡ entry_ok s.now from i }
{
    word(s, from + i) <= 1000000
}

// Each entry is judged: a flag over all and no exit inside. The test tells the compiler that they all lie in the sheet, so the loop becomes
// vector code.
fn each_ok(s: &[u8], from: usize, m: usize) -> bool
    requires { from + m ≤ words s.now }
    ensures { result ≡ all_below m (entry_ok s.now from) }
{
    if s.len() / 4 < from + m {
        return false;
    }
    let mut ok = true;
    for i in 0..m {
        ok &= entry_ok(s, from, i);
    }
    ok
}

// The or of four words, each `part` words behind the one before.
fn or_of_four(s: &[u8], at: usize, part: usize) -> u32
    requires { at + part + part + part < words s.now }
    ensures { result ≡ or_of_four (word_at s.now) at part }
{
    let second = at + part;
    let third = second + part;
    word(s, at) | word(s, second) | word(s, third) | word(s, third + part)
}

// The or of all entries first, since no entry is above it: only where it is too high is each one judged. The quarters go side by side, so that no
// stretch waits for another.
pub fn entries_ok(s: &[u8], from: usize, m: usize) -> bool
    requires { from + m ≤ words s.now }
    ensures { result ≡ all_below m (entry_ok s.now from) }
{
    if s.len() / 4 < from + m {
        return false;
    }
    let part = m / 4;
    let mut all: u32 = 0;
    for i in 0..part {
        all |= or_of_four(s, from + i, part);
    }
    for i in 4 * part..m {
        all |= word(s, from + i);
    }
    if all <= 1000000 {
        return true;
    }
    each_ok(s, from, m)
}
