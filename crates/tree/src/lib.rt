// The tree over records and tags in a lent volume: the test of a path, of the whole, a path renewed, all of it built.
// It touches `layout`, `answers`, `records` and `nodes`.
#![tactic(auto)]

ghost use Rattle.std.specs.Prelude.{◌≡◌, true, ◌*◌, ◌<◌, ◌≤◌, max};
ghost use Rattle.layout.specs.Shape.{in_limits, leaves};
ghost use Rattle.tree.specs.Path.{good_record, climbed, path_of, Rises};
ghost use Rattle.tree.specs.Whole.{records_from, nugget_leaf, bad_of, worst, at_node, whole_of, HasHeight};
ghost use Rattle.tree.specs.Renewed.{renewed, built};
ghost use Rattle.layout.specs.Shaped.{Shaped};

use answers::{Answer, Place, Refusal};
use layout::Shape;
use records::Gauge;

// Whether record n is well formed and its leaf is node L + n.
fn good_record(vol: &[u8], s: Shape, gauge: Gauge, n: u32) -> bool
    requires { Shaped s vol.now × (n < s.n) }
    ensures { result ≡ good_record s gauge vol.now n }
{
    let r = records::read(vol, s, n);
    records::well_formed(r, s.p, gauge) && nodes::good(vol, s, (layout::leaves_of(s.n) as u32) + n)
}

// "then node i, from its parent up, that isn't made of its two"
fn climb(vol: &[u8], s: Shape, count: u32, from: u32) -> Answer
    requires { Shaped s vol.now × Rises count from × (from < 2 * leaves s.n) }
    ensures { result ≡ climbed s vol.now count from }
{
    let mut i = from;
    for _above in 0..count {
        if !nodes::good(vol, s, i) {
            return Err(Refusal::Altered(Place::Node(i)));
        }
        i /= 2;
    }
    Ok(())
}

// The test "path" of nugget n.
pub fn path(vol: &[u8], s: Shape, gauge: Gauge, n: u32) -> Answer
    requires { Shaped s vol.now × (n < s.n) }
    ensures { result ≡ path_of s gauge vol.now n }
{
    if !good_record(vol, s, gauge, n) {
        return Err(Refusal::Altered(Place::Record(n)));
    }
    let leaf = (layout::leaves_of(s.n) as u32) + n;
    climb(vol, s, layout::height_of(s.n), leaf / 2)
}

// "records ascending"
fn all_records(vol: &[u8], s: Shape, gauge: Gauge) -> Answer
    requires { Shaped s vol.now }
    ensures { result ≡ records_from s gauge vol.now s.n 0 }
{
    for n in 0..s.n {
        if !good_record(vol, s, gauge, n) {
            return Err(Refusal::Altered(Place::Record(n)));
        }
    }
    Ok(())
}

// Whether node i is the leaf of a nugget, which belongs to its record's test.
fn nugget_leaf(s: Shape, i: u32) -> bool
    requires { in_limits s ≡ true }
    ensures { result ≡ nugget_leaf s i }
{
    let first = layout::leaves_of(s.n) as u32;
    first <= i && i < first + s.n
}

// Node i if it is bad, else 0.
fn bad(vol: &[u8], s: Shape, i: u32) -> u32
    requires { Shaped s vol.now × (1 ≤ i) × (i < 2 * leaves s.n) }
    ensures { result ≡ bad_of s vol.now i }
{
    if nugget_leaf(s, i) || nodes::good(vol, s, i) {
        0
    } else {
        i
    }
}

// "each node stands over the two nodes below it": the greatest bad node of the subtree of this height under node i.
fn worst_under(vol: &[u8], s: Shape, height: u32, i: u32) -> u32
    requires { Shaped s vol.now × HasHeight s height i }
    ensures { result ≡ worst s vol.now height i }
{
    let own = bad(vol, s, i);
    if height == 0 {
        return own;
    }
    let left = worst_under(vol, s, height - 1, 2 * i);
    let right = worst_under(vol, s, height - 1, 2 * i + 1);
    own.max(left.max(right))
}

fn at_node(i: u32) -> Answer
    ensures { result ≡ at_node i }
{
    if i == 0 {
        Ok(())
    } else {
        Err(Refusal::Altered(Place::Node(i)))
    }
}

// The test "whole": "records ascending, then all other nodes from 2L - 1 down to 1".
pub fn whole(vol: &[u8], s: Shape, gauge: Gauge) -> Answer
    requires { Shaped s vol.now }
    ensures { result ≡ whole_of s gauge vol.now }
{
    all_records(vol, s, gauge)?;
    at_node(worst_under(vol, s, layout::height_of(s.n), 1))
}

// The leaf of nugget n and the nodes above it, made anew from the leaf up.
pub fn renew(vol: &mut [u8], s: Shape, n: u32)
    requires { Shaped s vol.old × (n < s.n) }
    ensures { vol.new ≡ renewed s n vol.old }
{
    let mut i = (layout::leaves_of(s.n) as u32) + n;
    for _above in 0..layout::height_of(s.n) + 1 {
        nodes::store(&mut *vol, s, i);
        i /= 2;
    }
}

// Every node made anew, from the last to the first.
pub fn build(vol: &mut [u8], s: Shape)
    requires { Shaped s vol.old }
    ensures { vol.new ≡ built s vol.old }
{
    for i in (1..2 * (layout::leaves_of(s.n) as u32)).rev() {
        nodes::store(&mut *vol, s, i);
    }
}
