// The day sheet: its sections, and the numbers by which it is refused.
#![tactic(auto)]

ghost use Rattle.std.specs.Prelude.{◌≡◌, ◌+◌, ◌*◌, ◌<◌, ◌≤◌, IfOk};
ghost use Rattle.laws.specs.Basic.{or_else};
ghost use Rattle.words.specs.Word.{size};
ghost use Rattle.rules.specs.Refused.{number_in};
ghost use Rattle.sheet.specs.Section.{vans_at, nodes_at, jobs_at, steps_at, n_of};
ghost use Rattle.sheet.specs.Section.{head_refusal, limits_refusal, nodes_refusal, jobs_refusal, table_refusal, steps_refusal, later_refusal, read_refusal};
ghost use Rattle.sheet.specs.Place.{layout_of, found, read_in, Stands, Laid};

use rules::{Job, Node, Refusal, Step, Van};
use words::{Entry, all_limits_ok, entries_ok, jobs_ok, nodes_ok, word};

// Where an accepted sheet has what: how many vans, nodes, jobs and steps, and the word of the first van, node, job, second, metre and step.
#[derive(Clone, Copy)]
pub struct Layout {
    pub vans: usize,
    pub nodes: usize,
    pub jobs: usize,
    pub steps: usize,
    pub van: usize,
    pub node: usize,
    pub job: usize,
    pub seconds: usize,
    pub metres: usize,
    pub step: usize,
}

// A section that was read: its count, the word of its first entry and the word behind its last.
#[derive(Clone, Copy)]
struct Part {
    count: usize,
    from: usize,
    end: usize,
}

// The section whose count stands at word `at`, is to be lo to hi, and counts entries of `width` words.
fn head(s: &[u8], at: usize, lo: usize, hi: usize, width: usize) -> Result<Part, Refusal>
    requires { (at < 100000) × (hi ≤ 5000) × (width ≤ 4) }
    ensures number { number_in result ≡ head_refusal s.now at lo hi width }
    ensures part { IfOk result (Stands s.now at width) }
{
    let have = s.len() / 4;
    if have <= at {
        return Err(Refusal::Short);
    }
    let count = word(s, at) as usize;
    if count < lo {
        return Err(Refusal::Count);
    }
    if hi < count {
        return Err(Refusal::Count);
    }
    let from = at + 1;
    let end = from + width * count;
    if have < end {
        return Err(Refusal::Short);
    }
    Ok(Part { count, from, end })
}

// The entries of a table of n rows.
fn square(n: usize) -> usize
    requires { n ≤ 64 }
    ensures { (result ≡ n * n) × (result ≤ 4096) }
{
    n * n
}

// Section 1, whose count is of words, one more than its vans have: one that leaves a van with too few is refused before the section is found
// short.
fn limits(s: &[u8]) -> Result<Part, Refusal>
    ensures number { number_in result ≡ limits_refusal s.now }
    ensures part { IfOk result (Stands s.now vans_at 1) }
{
    if s.len() < 4 {
        return Err(Refusal::Short);
    }
    if word(s, 0) as usize % Entry::VAN != 1 {
        return Err(Refusal::Count);
    }
    let p = head(s, 0, Entry::VAN + 1, Entry::VAN * Van::MOST + 1, 1)?;
    let v = p.count / Entry::VAN;
    let profile = word(s, p.from + Entry::VAN * v);
    let ok = all_limits_ok(s, p.from, v);
    if ok & (profile <= 1) {
        Ok(p)
    } else {
        Err(Refusal::Value)
    }
}

// Section 2.
fn nodes(s: &[u8], at: usize) -> Result<Part, Refusal>
    requires { (at ≡ nodes_at s.now) × (at < 90000) }
    ensures number { number_in result ≡ nodes_refusal s.now }
    ensures part { IfOk result (Stands s.now (nodes_at s.now) size.node) }
{
    let p = head(s, at, 2, Node::MOST, Entry::NODE)?;
    if nodes_ok(s, p.from, p.count) {
        Ok(p)
    } else {
        Err(Refusal::Value)
    }
}

// Section 3, of n nodes.
fn jobs(s: &[u8], at: usize, n: usize) -> Result<Part, Refusal>
    requires { (at ≡ jobs_at s.now) × (at < 90000) × (n ≡ n_of s.now) × (2 ≤ n) × (n ≤ 64) }
    ensures number { number_in result ≡ jobs_refusal s.now }
    ensures part { IfOk result (Stands s.now (jobs_at s.now) size.job) }
{
    let p = head(s, at, 0, Job::MOST, Entry::JOB)?;
    if jobs_ok(s, n as u32, p.from, p.count) {
        Ok(p)
    } else {
        Err(Refusal::Value)
    }
}

// Section 4 or 5, of n nodes.
fn table(s: &[u8], at: usize, n: usize) -> Result<Part, Refusal>
    requires { (n ≤ 64) × (at < 90000) }
    ensures number { number_in result ≡ table_refusal s.now n at }
    ensures part { IfOk result (Stands s.now at 1) }
{
    let m = square(n);
    let p = head(s, at, m, m, 1)?;
    if entries_ok(s, p.from, m) {
        Ok(p)
    } else {
        Err(Refusal::Value)
    }
}

// Section 6, behind which nothing is left over.
fn steps(s: &[u8], at: usize) -> Result<Part, Refusal>
    requires { (at ≡ steps_at s.now) × (at < 90000) }
    ensures number { number_in result ≡ steps_refusal s.now }
    ensures part { IfOk result (Stands s.now (steps_at s.now) size.step) }
{
    let p = head(s, at, 0, Step::MOST, Entry::STEP)?;
    let ok = s.len() / 4 == p.end;
    if ok { Ok(p) } else { Err(Refusal::Short) }
}

// Sections 4 to 6 of a sheet whose first three are fine.
fn later(s: &[u8], vans: Part, nodes: Part, jobs: Part) -> Result<Layout, Refusal>
    requires fine { (limits_refusal s.now ≡ 0) × (nodes_refusal s.now ≡ 0) × (jobs_refusal s.now ≡ 0) }
    requires stands { Stands s.now vans_at 1 vans × Stands s.now (nodes_at s.now) size.node nodes × Stands s.now (jobs_at s.now) size.job jobs }
    ensures number { number_in result ≡ later_refusal s.now }
    ensures layout { IfOk result (λ l. l ≡ layout_of s.now) }
{
    let n = nodes.count;
    let seconds = table(s, jobs.end, n)?;
    let metres = table(s, seconds.end, n)?;
    let steps = steps(s, metres.end)?;
    Ok(Layout {
        vans: vans.count / Entry::VAN,
        nodes: n,
        jobs: jobs.count,
        steps: steps.count,
        van: vans.from,
        node: nodes.from,
        job: jobs.from,
        seconds: seconds.from,
        metres: metres.from,
        step: steps.from,
    })
}

// Sections 3 to 6 of a sheet whose first two are fine. Each of these functions goes on to the next, and is no long list of calls: one that
// stands behind many tests the compiler takes for rare and leaves a call, and then every number goes through memory.
fn from_jobs(s: &[u8], vans: Part, nodes: Part) -> Result<Layout, Refusal>
    requires fine { (limits_refusal s.now ≡ 0) × (nodes_refusal s.now ≡ 0) }
    requires stands { Stands s.now vans_at 1 vans × Stands s.now (nodes_at s.now) size.node nodes }
    ensures number { number_in result ≡ or_else (jobs_refusal s.now) (later_refusal s.now) }
    ensures layout { IfOk result (λ l. l ≡ layout_of s.now) }
{
    let jobs = jobs(s, nodes.end, nodes.count)?;
    later(s, vans, nodes, jobs)
}

// Reads the sections: the length, each section in order, what is left over; and hands on where they stand.
pub fn sections(s: &[u8]) -> Result<Layout, Refusal>
    ensures found { read_in result ≡ found read_refusal s.now }
    ensures number { number_in result ≡ read_refusal s.now }
    ensures layout { IfOk result (Laid s.now) }
{
    if s.len() % 4 != 0 {
        return Err(Refusal::Short);
    }
    let vans = limits(s)?;
    let nodes = nodes(s, vans.end)?;
    from_jobs(s, vans, nodes)
}
