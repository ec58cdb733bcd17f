// What a sheet says: its jobs, its tables, what a call and what opening checks, its sections, and every number of it.
#![tactic(auto)]

pub mod classes;
pub mod jobs;
pub mod look;

ghost use Rattle.std.specs.Prelude.{◌≡◌, ◌+◌, ◌*◌, ◌≤◌, IfOk, Some, None};
ghost use Rattle.sheet.specs.Place.{Laid, found};
ghost use Rattle.day.specs.Refuse.{call_refusal, open_refusal, found_in};
ghost use Rattle.day.specs.Section.{section_in, SpanIn};

use rules::Refusal;
use sheet::Layout;
use words::Entry;

// Why a sheet is refused, and where it has what, where its sections are not.
#[derive(Clone, Copy)]
pub struct Refused {
    pub why: Refusal,
    pub at: Option<Layout>,
}

impl Refused {
    // By what is asked once its sections are read.
    fn behind(at: Layout, why: Refusal) -> Refused
        ensures { result ≡ record { why = why; at = Some at } }
    {
        Refused { why, at: Some(at) }
    }
}

impl From<Refusal> for Refused {
    ghost from_gives = { λ why r. r ≡ record { why = why; at = None } };

    fn from(why: Refusal) -> Refused {
        Refused { why, at: None }
    }
}

impl From<Refused> for Refusal {
    ghost from_gives = { λ r why. why ≡ r.why };

    fn from(r: Refused) -> Refusal {
        r.why
    }
}

// What every call on a sheet checks: where it has what, or why it is refused.
pub fn checked(s: &[u8]) -> Result<Layout, Refused>
    ensures found { found_in result ≡ found call_refusal s.now }
    ensures number { (found_in result).answer ≡ call_refusal s.now }
    ensures layout { IfOk result (Laid s.now) }
{
    let at = sheet::sections(s)?;
    let jobs = jobs::look_over(s, at);
    if !jobs.apart {
        return Err(Refused::behind(at, Refusal::Twice));
    }
    let most = look::largest(s, at);
    let light = jobs.heaviest <= most;
    if !light {
        return Err(Refused::behind(at, Refusal::Heavy));
    }
    if classes::ends_admit(s, at) {
        Ok(at)
    } else {
        Err(Refused::behind(at, Refusal::Class))
    }
}

// What opening checks.
pub fn opening(s: &[u8]) -> Result<Layout, Refused>
    ensures found { found_in result ≡ found open_refusal s.now }
    ensures number { (found_in result).answer ≡ open_refusal s.now }
    ensures layout { IfOk result (Laid s.now) }
{
    let at = checked(s)?;
    let seconds = tables::triangle_ok(s, at.seconds, at.nodes);
    let metres = tables::triangle_ok(s, at.metres, at.nodes);
    if seconds & metres {
        Ok(at)
    } else {
        Err(Refused::behind(at, Refusal::Triangle))
    }
}

// A stretch of words.
#[derive(Clone, Copy)]
pub struct Span {
    pub from: usize,
    pub count: usize,
}

// The words of a section.
#[tactic(auto, unfolding(crate::specs::Section::span_of))]
fn span_of(l: Layout, number: usize) -> Span
    requires { (l.vans ≤ 8) × (l.nodes ≤ 64) × (l.jobs ≤ 155) × (l.steps ≤ 2000) }
    ensures { SpanIn l number result }
{
    match number {
        1 => Span {
            from: l.van,
            count: Entry::VAN * l.vans + 1,
        },
        2 => Span {
            from: l.node,
            count: Entry::NODE * l.nodes,
        },
        3 => Span {
            from: l.job,
            count: Entry::JOB * l.jobs,
        },
        4 => Span {
            from: l.seconds,
            count: l.nodes * l.nodes,
        },
        5 => Span {
            from: l.metres,
            count: l.nodes * l.nodes,
        },
        6 => Span {
            from: l.step,
            count: Entry::STEP * l.steps,
        },
        _ => Span { from: 0, count: 0 },
    }
}

// The stretch of the sheet that holds a section's entries, without their count; empty for a sheet that a call refuses and for a number that
// names no section.
pub fn section(s: &[u8], number: usize) -> &[u8]
    ensures { (result.ref_ptr, result.now) ≡ section_in s.entry.ref_ptr s.now number }
{
    match checked(s) {
        Ok(at) => {
            let p = span_of(at, number);
            let from = 4 * p.from;
            let end = from + 4 * p.count;
            &s[from..end]
        },
        Err(_) => &s[..0],
    }
}
