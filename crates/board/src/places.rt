// What a step does to every place set, and how many places are open. Each pass is over the nodes: past them the sets are empty.
ghost use Rattle.std.specs.Prelude.{◌≡◌, map, ◌≤◌, length};
ghost use Rattle.board.specs.Board.{places_of};
ghost use Rattle.board.specs.Change.{heir};
ghost use Rattle.board.specs.Held.{Ends};

use rules::Node;

#[tactic(auto, unfolding(crate::specs::Change::heir))]
fn heir_of(w: u64, p: usize, x: usize) -> u64
    ensures { result ≡ heir p x w }
{
    if bits::has(w, p) { bits::with(w, x) } else { w }
}

// x is placed after p: where leg p was open, leg x is too.
pub fn inherit(sets: &mut [u64; Node::MOST], n: usize, p: usize, x: usize)
    requires { (length sets.old ≡ 64) × (n ≤ 64) × Ends n sets.old }
    ensures { sets.new ≡ map (heir p x) sets.old }
{
    for i in 0..n {
        sets[i] = heir_of(sets[i], p, x);
    }
}

// The open places of the first n nodes: for each the count of ones in its word.
pub fn count(sets: &[u64; Node::MOST], n: usize) -> usize
    requires { n ≤ 64 }
    ensures { (result ≡ places_of sets.now n) × (result ≤ 4096) }
{
    let mut k = 0;
    for w in &sets[..n] {
        k += bits::count(*w);
    }
    k
}
