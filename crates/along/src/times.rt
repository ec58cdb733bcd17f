// A start at the next stop, and L.
ghost use Rattle.std.specs.Prelude.{◌≡◌, ◌+◌, ◌<◌, ◌≤◌, length, take, pos, ◌-ℤ◌};
ghost use Rattle.std.specs.Int.Signed.{mag, le_z};
ghost use Rattle.laws.specs.Basic.{Filled};
ghost use Rattle.rules.specs.Time.{last_moment, min_z};
ghost use Rattle.rules.specs.Along.{last_at};
ghost use Rattle.rules.proofs.AlongLaws.{arrives};
ghost use Rattle.sheet.specs.Place.{Laid};
ghost use Rattle.day.specs.Tell.{day_of};
ghost use Rattle.along.specs.Route.{Route};
ghost use Rattle.along.specs.Times.{reached};

use day::look::{earliest, latest, seconds, service};
use rules::Node;
use sheet::Layout;

// The last moment at which service at x may start: the cages are in when the door is shut.
pub fn last_moment(s: &[u8], at: Layout, x: usize) -> i64
    requires { Laid s.now at × (x < at.nodes) }
    ensures { result ≡ last_moment (day_of s.now) x }
{
    latest(s, at, x) as i64 - service(s, at, x) as i64
}

// The start at x of a van that leaves p at `leave`.
pub fn reach(s: &[u8], at: Layout, leave: usize, p: usize, x: usize) -> usize
    requires { Laid s.now at × (p < at.nodes) × (x < at.nodes) × (leave < 2199023255552) }
    ensures { (result ≡ reached (day_of s.now) leave p x) × (result ≤ leave + 1000000) }
{
    let e = earliest(s, at, x);
    let a = leave + seconds(s, at, p, x);
    if e <= a { a } else { e }
}

// The start at x of a van that starts at p at the time t.
pub fn arrive(s: &[u8], at: Layout, t: usize, p: usize, x: usize) -> usize
    requires { Laid s.now at × (p < at.nodes) × (x < at.nodes) × (t < 1099511627776) }
    ensures { (result ≡ arrives (day_of s.now) t p x) × (result ≤ t + 2000000) }
{
    let leave = t + service(s, at, p);
    reach(s, at, leave, p, x)
}

// The last start at a stop: its own last moment, or what the last start at the next stop, `gap` seconds on, leaves of it.
fn before(moment: i64, next: i64, gap: usize) -> i64
    requires { (gap < 1099511627776) × (mag next < 1099511627776) }
    ensures { result ≡ min_z moment (next -ℤ pos gap) }
{
    let rest = next - gap as i64;
    if moment <= rest { moment } else { rest }
}

// Whether a start at t is not after `last`.
pub fn in_time(t: usize, last: i64) -> bool
    requires { t < 4611686018427387904 }
    ensures { result ≡ le_z (pos t) last }
{
    t as i64 <= last
}

// L: the last start at each stop, into an array.
pub fn lasts(
    s: &[u8],
    at: Layout,
    route: &[usize; Node::MOST],
    stops: usize,
    l: &mut [i64; Node::MOST],
)
    requires { Laid s.now at × Route at.nodes route.now stops × (length l.old ≡ 64) }
    ensures { Filled 64 (last_at (day_of s.now) (take stops route.now)) (pos 0) stops l.new }
{
    let end = stops - 1;
    let mut t = last_moment(s, at, route[end]);
    l[end] = t;
    for i in (0..end).rev() {
        let p = route[i];
        let gap = service(s, at, p) + seconds(s, at, p, route[i + 1]);
        t = before(last_moment(s, at, p), t, gap);
        l[i] = t;
    }
}
