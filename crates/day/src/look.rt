// Every number of an accepted sheet, one word read each.
ghost use Rattle.std.specs.Prelude.{◌≡◌, ◌+◌, ◌*◌, ◌<◌, ◌≤◌};
ghost use Rattle.words.specs.Word.{size, words, word_at, Reads};
ghost use Rattle.sheet.specs.Place.{Laid};
ghost use Rattle.day.specs.Tell.{van_of, largest_of, day_of, step_word, step_in, Told};
ghost use Rattle.tables.specs.Cell.{cell, Table};

use rules::{Step, Van};
use sheet::Layout;
use words::{Entry, word};

// The i-th van of the sheet.
pub fn van(s: &[u8], l: Layout, i: usize) -> Van
    requires { Laid s.now l × (i < l.vans) }
    ensures { (result ≡ van_of s.now i) × (result.capacity ≤ 1000) × (result.limit ≤ 1000000) }
{
    let from = l.van + Entry::VAN * i;
    Van {
        capacity: word(s, from) as usize,
        limit: word(s, from + 1) as usize,
    }
}

// Whether the sheet has the profile: clean before soiled.
pub fn profile(s: &[u8], l: Layout) -> bool
    requires { Laid s.now l }
    ensures { result ≡ (day_of s.now).profile }
{
    word(s, l.van + Entry::VAN * l.vans) == 1
}

// The largest capacity of the sheet's vans.
pub fn largest(s: &[u8], l: Layout) -> usize
    requires { Laid s.now l }
    ensures { result ≡ largest_of s.now }
{
    let mut most = 0;
    for i in 0..l.vans {
        let one = van(s, l, i);
        most = most.max(one.capacity);
    }
    most
}

// Word k of the i-th entry of a section whose entries begin at word `from` and have `width` words.
pub fn entry_word(s: &[u8], from: usize, width: usize, i: usize, k: usize) -> usize
    requires { (from + width * i + width ≤ words s.now) × (k < width) }
    ensures { Reads (word_at s.now (from + width * i + k)) result }
{
    word(s, from + width * i + k) as usize
}

pub fn earliest(s: &[u8], l: Layout, x: usize) -> usize
    requires { Laid s.now l × (x < l.nodes) }
    ensures { Told ((day_of s.now).earliest x) 1000000 result }
{
    entry_word(s, l.node, Entry::NODE, x, 0)
}

pub fn latest(s: &[u8], l: Layout, x: usize) -> usize
    requires { Laid s.now l × (x < l.nodes) }
    ensures { Told ((day_of s.now).latest x) 1000000 result }
{
    entry_word(s, l.node, Entry::NODE, x, 1)
}

pub fn service(s: &[u8], l: Layout, x: usize) -> usize
    requires { Laid s.now l × (x < l.nodes) }
    ensures { Told ((day_of s.now).service x) 1000000 result }
{
    entry_word(s, l.node, Entry::NODE, x, 2)
}

// Word k of the i-th step.
fn step_word(s: &[u8], l: Layout, i: usize, k: usize) -> usize
    requires { Laid s.now l × (i < l.steps) × (k < size.step) }
    ensures { Told (step_word s.now i k) 4294967295 result }
{
    entry_word(s, l.step, Entry::STEP, i, k)
}

// The i-th step.
pub fn step(s: &[u8], l: Layout, i: usize) -> Step
    requires { Laid s.now l × (i < l.steps) }
    ensures { result ≡ step_in s.now i }
{
    let word = step_word(s, l, i, 0);
    let first = step_word(s, l, i, 1);
    let second = step_word(s, l, i, 2);
    Step::said(word, first, second)
}

// Row i, column j of a table of n rows whose entries begin at word `from`.
fn cell_at(s: &[u8], from: usize, n: usize, i: usize, j: usize) -> usize
    requires { Table s.now from n × (i < n) × (j < n) }
    ensures { Told (cell s.now from n i j) 1000000 result }
{
    word(s, from + i * n + j) as usize
}

pub fn seconds(s: &[u8], l: Layout, i: usize, j: usize) -> usize
    requires { Laid s.now l × (i < l.nodes) × (j < l.nodes) }
    ensures { Told ((day_of s.now).seconds i j) 1000000 result }
{
    cell_at(s, l.seconds, l.nodes, i, j)
}

pub fn metres(s: &[u8], l: Layout, i: usize, j: usize) -> usize
    requires { Laid s.now l × (i < l.nodes) × (j < l.nodes) }
    ensures { Told ((day_of s.now).metres i j) 1000000 result }
{
    cell_at(s, l.metres, l.nodes, i, j)
}
