// Records: two words each, in a lent slice.
ghost use Rattle.std.specs.Prelude.{◌≡◌, ◌+◌, ◌^◌, ◌≤◌, ◌<◌};
ghost use Rattle.records.specs.Trail.{room_of, pushed, change, first_word, Alike, shrunk, note_one, note_below};

use rules::Node;

// A record, named by its kind.
#[derive(Clone, Copy)]
pub struct Record;

impl Record {
    // A node's set made smaller.
    pub const SHRINKING: u64 = 1;

    // A node placed.
    pub const PLACING: u64 = 2;

    // A node marked.
    pub const MARKING: u64 = 3;

    // A node marked "must go somewhere".
    pub const OBLIGING: u64 = 4;

    // What one kind counts in a first word.
    pub const WEIGHT: u64 = 256;
}

// The first word of a record: its kind and its node.
pub fn first_word(kind: u64, x: usize) -> u64
    requires { (kind ≤ change.OBLIGING) × (x < 64) }
    ensures { result ≡ first_word kind x }
{
    Record::WEIGHT * kind + x as u64
}

// Record i written.
#[tactic(auto, unfolding(crate::specs::Trail::room_of, crate::specs::Trail::pushed))]
pub fn push(trail: &mut [u64], i: usize, first: u64, second: u64)
    requires { i < room_of trail.old }
    ensures { trail.new ≡ pushed trail.old i first second }
{
    let at = 2 * i;
    trail[at] = first;
    trail[at + 1] = second;
}

// How many sets differ, which they do at the nodes only: the records that a settling needs.
pub fn needed<'a>(old: &'a [u64; Node::MOST], new: &'a [u64; Node::MOST], n: usize) -> usize
    requires { (n ≤ 64) × Alike n old.now new.now }
    ensures { (result ≡ shrunk old.now new.now 64) × (result ≤ 64) }
{
    let mut k = 0;
    for y in 0..n {
        if old[y] != new[y] {
            k += 1;
        }
    }
    k
}

// The record of node y, if its set w became v. The answer is the record count.
fn note_one(trail: &mut [u64], i: usize, w: u64, v: u64, y: usize) -> usize
    requires { (y < 64) × (i < 2 ^ 63) × ((w ≡ v → ⊥) → i < room_of trail.old) }
    ensures { note_one w v y (i, trail.old) ≡ (result, trail.new) }
{
    if w == v {
        return i;
    }
    push(trail, i, first_word(Record::SHRINKING, y), w);
    i + 1
}

// A record for each set that shrank, ascending. The answer is the record count.
pub fn note<'a>(
    trail: &mut [u64],
    records: usize,
    old: &'a [u64; Node::MOST],
    new: &'a [u64; Node::MOST],
    n: usize,
) -> usize
    requires { (n ≤ 64) × Alike n old.now new.now × (records + shrunk old.now new.now 64 ≤ room_of trail.old) }
    ensures { note_below old.now new.now 64 (records, trail.old) ≡ (result, trail.new) }
{
    let mut i = records;
    for y in 0..n {
        i = note_one(trail, i, old[y], new[y], y);
    }
    i
}
