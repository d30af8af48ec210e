// The nodes of the tree in a lent volume: what each has to be, whether it is so, and a node stored anew.
// It touches `base`, `words`, `messages`, `layout` and `blake2s`.
#![tactic(auto)]

ghost use Rattle.std.specs.Prelude.{◌≡◌, ◌+◌, ◌*◌, ◌<◌, ◌≤◌};
ghost use Rattle.layout.specs.Shape.{leaves};
ghost use Rattle.nodes.specs.Nodes.{node_in, leaf_of, inner_of};
ghost use Rattle.nodes.specs.Made.{made_of, good_node, store_node};
ghost use Rattle.layout.specs.Shaped.{Shaped};

use layout::Shape;

// "no key, `L`, nugget (4), the 18 record bytes, the nugget's P tags"
fn leaf(vol: &[u8], s: Shape, n: u32) -> [u8; 32]
    requires { Shaped s vol.now × (n < s.n) }
    ensures { result ≡ leaf_of s vol.now n }
{
    let p = s.p as usize;
    let record = layout::record_at(s, n);
    let record_end = record + layout::width_of(s);
    let tags = layout::tag_at(s, n, 0);
    let tags_end = tags + 16 * p;
    let mut start = [0u8; 5];
    start[0] = b'L';
    words::store(&mut start, 1, 4, u64::from(n));
    let a = blake2s::absorb(blake2s::start(), &start);
    let b = blake2s::absorb(a, &vol[record..record_end]);
    let c = blake2s::absorb(b, &vol[tags..tags_end]);
    blake2s::finish(c)
}

// "no key, `T`, node 2i, node 2i + 1"
fn inner(vol: &[u8], s: Shape, i: u32) -> [u8; 32]
    requires { Shaped s vol.now × (1 ≤ i) × (i < leaves s.n) }
    ensures { result ≡ inner_of (node_in s vol.now (2 * i)) (node_in s vol.now (2 * i + 1)) }
{
    let left = layout::node_at(s, 2 * i);
    let left_end = left + 32;
    let right = layout::node_at(s, 2 * i + 1);
    let right_end = right + 32;
    let a = blake2s::absorb(blake2s::start(), &[b'T']);
    let b = blake2s::absorb(a, &vol[left..left_end]);
    let c = blake2s::absorb(b, &vol[right..right_end]);
    blake2s::finish(c)
}

// What node i has to be.
fn made(vol: &[u8], s: Shape, i: u32) -> [u8; 32]
    requires { Shaped s vol.now × (1 ≤ i) × (i < 2 * leaves s.n) }
    ensures { result ≡ made_of s vol.now i }
{
    let first = layout::leaves_of(s.n) as u32;
    if i < first {
        return inner(vol, s, i);
    }
    if i - first < s.n {
        return leaf(vol, s, i - first);
    }
    [0u8; 32]
}

// Whether node i is what it has to be.
pub fn good(vol: &[u8], s: Shape, i: u32) -> bool
    requires { Shaped s vol.now × (1 ≤ i) × (i < 2 * leaves s.n) }
    ensures { result ≡ good_node s vol.now i }
{
    let m = made(vol, s, i);
    let at = layout::node_at(s, i);
    let end = at + 32;
    words::equal(&vol[at..end], &m)
}

// Node i made anew.
pub fn store(vol: &mut [u8], s: Shape, i: u32)
    requires { Shaped s vol.old × (1 ≤ i) × (i < 2 * leaves s.n) }
    ensures { vol.new ≡ store_node s i vol.old }
{
    let m = made(&*vol, s, i);
    let at = layout::node_at(s, i);
    words::copy(&mut *vol, at, &m);
}

// Node 1.
pub fn first(vol: &[u8], s: Shape) -> [u8; 32]
    requires { Shaped s vol.now }
    ensures { result ≡ node_in s vol.now 1 }
{
    words::taken(vol, layout::node_at(s, 1))
}
