// The jobs by node, found once for a sheet: a walk along a route then asks each stop for its own jobs and looks at no other.
ghost use Rattle.std.specs.Prelude.{◌≡◌, ℕ, ◌+◌, ◌<◌, ◌≤◌, get_or, length, replicate};
ghost use Rattle.rules.specs.Load.{load_of};
ghost use Rattle.sheet.specs.Place.{Laid};
ghost use Rattle.day.specs.Tell.{job_in};
ghost use Rattle.day.specs.Seen.{Placed};
ghost use Rattle.along.specs.Nodes.{Entered, ByNode, Mates};

use bits::Each;
use rules::Job;
use sheet::Layout;

// The array that has them, and where its parts begin: the clean loads at its head, one for each node. At its end is the most that one job loads.
#[derive(Clone, Copy)]
pub struct Jobs;

impl Jobs {
    pub const ROOM: usize = 321;

    pub const SOILED: usize = 64;

    pub const FIRST: usize = 128;

    pub const SECOND: usize = 192;

    pub const PARTNER: usize = 256;

    pub const HEAVIEST: usize = 320;
}

// One job more, but for the most that one loads.
fn enter(job: Job, t: &mut [u32; Jobs::ROOM])
    requires { Placed job × (load_of job ≤ 1000) × (length t.old ≡ 321) × ((i : ℕ) → get_or t.old i 0 ≤ 1048576) }
    ensures { Entered job t.old t.new }
{
    match job {
        Job::Clean { node, load } => {
            t[node] += load as u32;
        },
        Job::Soiled { node, load } => {
            t[Jobs::SOILED + node] += load as u32;
        },
        Job::Transfer { from, to, load } => {
            t[Jobs::FIRST + from] += load as u32;
            t[Jobs::SECOND + to] += load as u32;
            t[Jobs::PARTNER + from] = to as u32;
            t[Jobs::PARTNER + to] = from as u32;
        },
    }
}

// All jobs of the sheet, into an array of zeros.
pub fn by_node(s: &[u8], at: Layout, t: &mut [u32; Jobs::ROOM])
    requires { Laid s.now at × (t.old ≡ replicate 321 0) }
    ensures { ByNode (job_in s.now) at.jobs t.new }
{
    for j in 0..at.jobs {
        let job = day::jobs::job(s, at, j);
        enter(job, t);
        t[Jobs::HEAVIEST] = t[Jobs::HEAVIEST].max(job.load() as u32);
    }
}

// The partners of the members of a set; a node that has none has the start for it.
pub fn partners_of(t: &[u32; Jobs::ROOM], members: u64) -> u64
    requires { (length t.now ≡ 321) × ((x : ℕ) → x < 64 → get_or t.now (256 + x) 0 < 64) }
    ensures { Mates t.now members result }
{
    let mut word: u64 = 0;
    for x in Each::of(members) {
        word = bits::put(word, t[Jobs::PARTNER + x] as usize);
    }
    word
}
