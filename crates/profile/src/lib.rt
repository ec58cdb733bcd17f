// Clean before soiled (02, No. 11): which legs of a route are shut to a clean node, and which to a soiled one.
#![tactic(auto)]

ghost use Rattle.std.specs.Prelude.{◌≡◌, not, ◌&&◌, ℕ, ◌<◌, ◌≤◌, get_or, length};
ghost use Rattle.bits.specs.Places.{has};
ghost use Rattle.profile.specs.Shut.{Shuts, shut_to};

use rules::Node;

// The nodes with a clean job, and the legs that are too late for them; the nodes with a soiled job, and the legs that are too early for them. A leg is
// named by the stop that it leaves, as a place is.
#[derive(Clone, Copy)]
pub struct Shut {
    pub clean: u64,
    pub late: u64,
    pub soiled: u64,
    pub early: u64,
}

// One look along the route: from its first soiled stop on the legs are too late for a clean node, and up to its last clean stop they are too early for
// a soiled one.
pub fn shut_legs(route: &[usize; Node::MOST], legs: usize, clean: u64, soiled: u64) -> Shut
    requires { (length route.now ≡ 64) × (legs < 64) × ((i : ℕ) → i ≤ legs → get_or route.now i 0 < 64) }
    ensures { Shuts route.now legs clean soiled result }
{
    let mut passed: u64 = 0;
    let mut late: u64 = 0;
    let mut early: u64 = 0;
    let mut met = false;
    for i in 0..legs {
        let p = route[i];
        met |= bits::holds(soiled, p);
        if met {
            late = bits::put(late, p);
        }
        passed = bits::put(passed, p);
        if bits::holds(clean, route[i + 1]) {
            early = passed;
        }
    }
    Shut {
        clean,
        late,
        soiled,
        early,
    }
}

// What is left of the places of x: all legs that are shut to it go at once.
pub fn cut(word: u64, x: usize, shut: Shut) -> u64
    requires { x < 64 }
    ensures { (q : ℕ) → has result q ≡ (has word q && not (shut_to shut x q)) }
{
    let late = if bits::holds(shut.clean, x) {
        shut.late
    } else {
        0
    };
    let early = if bits::holds(shut.soiled, x) {
        shut.early
    } else {
        0
    };
    bits::minus(word, bits::join(late, early))
}
