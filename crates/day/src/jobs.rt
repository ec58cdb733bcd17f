// The jobs of a sheet, whether two of them are one too many for a node, and how heavy they are.
ghost use Rattle.std.specs.Prelude.{◌≡◌, ◌+◌, ◌*◌, ◌<◌, ◌≤◌};
ghost use Rattle.words.specs.Word.{size, words};
ghost use Rattle.sheet.specs.Place.{Laid};
ghost use Rattle.day.specs.Tell.{job_at, job_in};
ghost use Rattle.day.specs.Seen.{Placed, seeing, LookedOver};

use rules::Job;
use sheet::Layout;
use words::{Entry, four_words};

// The i-th job of a section whose entries begin at word `from`.
#[tactic(auto, unfolding(crate::specs::Tell::job_at))]
fn job_at(s: &[u8], from: usize, i: usize) -> Job
    requires { from + size.job * i + size.job ≤ words s.now }
    ensures { result ≡ job_at s.now from i }
{
    let w = four_words(s, from, Entry::JOB, i);
    let a = w.second as usize;
    let b = w.third as usize;
    let load = w.fourth as usize;
    match w.first {
        1 => Job::Clean { node: a, load },
        2 => Job::Soiled { node: a, load },
        _ => Job::Transfer {
            from: a,
            to: b,
            load,
        },
    }
}

// The i-th job of the sheet.
pub fn job(s: &[u8], l: Layout, i: usize) -> Job
    requires { Laid s.now l × (i < l.jobs) }
    ensures { result ≡ job_in s.now i }
{
    job_at(s, l.job, i)
}

// The nodes at which a clean job, a soiled job or a transfer end was met, each a word, and whether one of them was met again.
#[derive(Clone, Copy)]
pub struct Seen {
    pub clean: u64,
    pub soiled: u64,
    pub ends: u64,
    pub twice: bool,
}

// One job more. It is told apart once: what it meets and whether that is met again come from one match.
fn see(seen: Seen, job: Job) -> Seen
    requires { Placed job }
    ensures { result ≡ seeing seen job }
{
    match job {
        Job::Clean { node, .. } => Seen {
            clean: bits::put(seen.clean, node),
            twice: seen.twice | bits::holds(seen.clean, node),
            ..seen
        },
        Job::Soiled { node, .. } => Seen {
            soiled: bits::put(seen.soiled, node),
            twice: seen.twice | bits::holds(seen.soiled, node),
            ..seen
        },
        Job::Transfer { from, to, .. } => Seen {
            ends: bits::put(bits::put(seen.ends, from), to),
            twice: seen.twice | (bits::holds(seen.ends, from) | bits::holds(seen.ends, to)),
            ..seen
        },
    }
}

// What all jobs together are held to: whether no node has two jobs of one kind, or two transfer ends, and the most that one job loads; and the nodes that
// have a clean job, and a soiled one.
#[derive(Clone, Copy)]
pub struct Looked {
    pub apart: bool,
    pub heaviest: usize,
    pub clean: u64,
    pub soiled: u64,
}

// One look at each job finds them all, with no exit inside: what is refused first is for the caller to say.
pub fn look_over(s: &[u8], l: Layout) -> Looked
    requires { Laid s.now l }
    ensures { LookedOver (job_in s.now) l.jobs result }
{
    let mut seen = Seen {
        clean: 0,
        soiled: 0,
        ends: 0,
        twice: false,
    };
    let mut heaviest = 0;
    for i in 0..l.jobs {
        let one = job(s, l, i);
        seen = see(seen, one);
        heaviest = heaviest.max(one.load());
    }
    Looked {
        apart: !seen.twice,
        heaviest,
        clean: seen.clean,
        soiled: seen.soiled,
    }
}
