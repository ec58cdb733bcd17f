// Which nodes admit which vans.
ghost use Rattle.std.specs.Prelude.{◌≡◌, ◌<◌, length};
ghost use Rattle.laws.specs.Basic.{Filled};
ghost use Rattle.sheet.specs.Place.{Laid};
ghost use Rattle.day.specs.Tell.{bit_of, class_of};
ghost use Rattle.day.specs.Refuse.{ends_admit};

use crate::look::entry_word;
use rules::Node;
use sheet::Layout;
use words::Entry;

// The bit of the i-th van.
pub fn bit(s: &[u8], l: Layout, i: usize) -> u32
    requires { Laid s.now l × (i < l.vans) }
    ensures { result ≡ bit_of s.now i }
{
    entry_word(s, l.van, Entry::VAN, i, 2) as u32
}

// The class set of node x.
fn class(s: &[u8], l: Layout, x: usize) -> u32
    requires { Laid s.now l × (x < l.nodes) }
    ensures { result ≡ class_of s.now x }
{
    entry_word(s, l.node, Entry::NODE, x, 3) as u32
}

// The class sets of all nodes, each read once, whatever the number of vans that ask for them.
pub fn read_classes(s: &[u8], l: Layout, classes: &mut [u32; Node::MOST])
    requires { Laid s.now l × (length classes.old ≡ 64) }
    ensures { Filled 64 (class_of s.now) 0 l.nodes classes.new }
{
    for x in 0..l.nodes {
        classes[x] = class(s, l, x);
    }
}

// Whether the start and the end admit every van.
pub fn ends_admit(s: &[u8], l: Layout) -> bool
    requires { Laid s.now l }
    ensures { result ≡ ends_admit s.now }
{
    let start = class(s, l, 0);
    let end = class(s, l, l.nodes - 1);
    (0..l.vans).all(|i| {
        let one = bit(s, l, i);
        Node::admits(start, one) & Node::admits(end, one)
    })
}
