// Two volumes against one drive: where both pass the path of a nugget and differ in its record or tags, the two messages with
// the same BLAKE2s value that this shows. It touches `tree` and `nodes` for the paths, `drive`, `layout`, `answers` and `words`.
#![tactic(auto)]

ghost use Rattle.std.specs.Prelude.{◌≡◌, ◌++◌, ◌+◌, ◌*◌, ◌<◌, ◌≤◌, length};
ghost use Rattle.std.proofs.lemmas.List.Edits.{sets};
ghost use Rattle.layout.specs.Shape.{leaves};
ghost use Rattle.layout.specs.Shaped.{Shaped};
ghost use Rattle.nodes.specs.Nodes.{node_in, record_part, tags_part};
ghost use Rattle.drive.specs.Drive.{shape_of};
ghost use Rattle.twins.specs.Collision.{message_of};
ghost use Rattle.twins.specs.Twins.{path_to, sizes_of, twins_answer, alike_in, same_node, meeting, found_in, twin_in, twins_of};

use answers::{Answer, Place, Refusal};
use drive::Drive;
use layout::Shape;

// What was answered, and how long the two messages are; 0 if there are none.
// No Result of a length: `TwinsRefused` speaks of the length that a refusal hands back.
#[derive(Clone, Copy)]
pub struct Twins {
    pub answer: Answer,
    pub length: u32,
}

// "7 path [..] judged by the drive's head; each path ends with node 1 against the drive's, place node 1"
fn path_to(d: Drive, vol: &[u8], n: u32) -> Answer
    requires { Shaped (shape_of d) vol.now × (n < d.n) }
    ensures { result ≡ path_to d vol.now n }
{
    let s = drive::shape_of(d);
    tree::path(vol, s, drive::gauge_of(d), n)?;
    if !words::equal(&nodes::first(vol, s), &d.node) {
        return Err(Refusal::Altered(Place::Node(1)));
    }
    Ok(())
}

// "1, 2, 8"
fn sizes(d: Drive, first: &[u8], second: &[u8], n: u32) -> Answer
    ensures { result ≡ sizes_of d first.now second.now n }
{
    drive::measure(d, first)?;
    drive::measure(d, second)?;
    if d.n <= n {
        return Err(Refusal::PastEnd);
    }
    Ok(())
}

// "then 7 path for the first volume, then the second"
fn judge(d: Drive, first: &[u8], second: &[u8], n: u32) -> Answer
    ensures { result ≡ twins_answer d first.now second.now n }
{
    sizes(d, first, second, n)?;
    path_to(d, first, n)?;
    path_to(d, second, n)
}

// The record bytes of nugget n: 18 in version 1, 26 in version 2.
fn record_bytes(vol: &[u8], s: Shape, n: u32) -> &[u8]
    requires { Shaped s vol.now × (n < s.n) }
    ensures { result.now ≡ record_part s vol.now n }
{
    let at = layout::record_at(s, n);
    let end = at + layout::width_of(s);
    &vol[at..end]
}

// The tags of nugget n.
fn tag_bytes(vol: &[u8], s: Shape, n: u32) -> &[u8]
    requires { Shaped s vol.now × (n < s.n) }
    ensures { result.now ≡ tags_part s vol.now n }
{
    let at = layout::tag_at(s, n, 0);
    let end = at + 16 * (s.p as usize);
    &vol[at..end]
}

fn node_bytes(vol: &[u8], s: Shape, i: u32) -> &[u8]
    requires { Shaped s vol.now × (1 ≤ i) × (i < 2 * leaves s.n) }
    ensures { result.now ≡ node_in s vol.now i }
{
    let at = layout::node_at(s, i);
    let end = at + 32;
    &vol[at..end]
}

// Whether record bytes and tags of nugget n agree.
fn alike(first: &[u8], second: &[u8], s: Shape, n: u32) -> bool
    requires { Shaped s first.now × Shaped s second.now × (n < s.n) }
    ensures { result ≡ alike_in s first.now second.now n }
{
    words::equal(record_bytes(first, s, n), record_bytes(second, s, n))
        && words::equal(tag_bytes(first, s, n), tag_bytes(second, s, n))
}

// The first node from the leaf up that both volumes have alike; node 1, where no other is.
fn meet(first: &[u8], second: &[u8], s: Shape, n: u32) -> u32
    requires { Shaped s first.now × Shaped s second.now × (n < s.n) }
    ensures { result ≡ meeting s first.now second.now n }
{
    let mut i = (layout::leaves_of(s.n) as u32) + n;
    for _above in 0..layout::height_of(s.n) {
        if words::equal(node_bytes(first, s, i), node_bytes(second, s, i)) {
            return i;
        }
        i /= 2;
    }
    i
}

// Three pieces one after the other; how long they are.
fn lay(out: &mut [u8], x: &[u8], y: &[u8], z: &[u8]) -> usize
    requires { length x.now + length y.now + length z.now ≤ length out.old }
    ensures { (result ≡ length (x.now ++ (y.now ++ z.now)))
        × (out.new ≡ sets out.old 0 (x.now ++ (y.now ++ z.now))) }
{
    let a = x.len();
    let b = a + y.len();
    words::copy(&mut *out, 0, x);
    words::copy(&mut *out, a, y);
    words::copy(&mut *out, b, z);
    b + z.len()
}

// What is hashed for node i. Of a nugget's leaf: "`L`, nugget (4), the 18 record bytes, the nugget's P tags"; of a node above it:
// "`T`, node 2i, node 2i + 1".
fn lay_message(vol: &[u8], s: Shape, i: u32, out: &mut [u8]) -> usize
    requires { Shaped s vol.now × (1 ≤ i) × (i < leaves s.n + s.n) × (1055 ≤ length out.old) }
    ensures { (result ≡ length (message_of s vol.now i))
        × (out.new ≡ sets out.old 0 (message_of s vol.now i)) }
{
    let first = layout::leaves_of(s.n) as u32;
    if i < first {
        return lay(
            &mut *out,
            &[b'T'],
            node_bytes(vol, s, 2 * i),
            node_bytes(vol, s, 2 * i + 1),
        );
    }
    let n = i - first;
    let mut start = [b'L', 0, 0, 0, 0];
    words::store(&mut start, 1, 4, u64::from(n));
    lay(
        &mut *out,
        &start,
        record_bytes(vol, s, n),
        tag_bytes(vol, s, n),
    )
}

// The two messages of the node where the paths meet; none if record and tags agree.
fn lay_twins(first: &[u8], second: &[u8], s: Shape, n: u32, one: &mut [u8], two: &mut [u8]) -> usize
    requires { Shaped s first.now × Shaped s second.now × (n < s.n) × (1055 ≤ length one.old) × (1055 ≤ length two.old) }
    ensures { (result ≡ length (found_in s first.now second.now n first.now))
        × (one.new ≡ sets one.old 0 (found_in s first.now second.now n first.now))
        × (two.new ≡ sets two.old 0 (found_in s first.now second.now n second.now)) }
{
    if alike(first, second, s, n) {
        return 0;
    }
    let i = meet(first, second, s, n);
    lay_message(second, s, i, &mut *two);
    lay_message(first, s, i, &mut *one)
}

// Of one nugget, for one drive and two volumes. A message is at most 5 + 26 + 16 * 64 bytes long.
pub fn find(
    d: Drive,
    first: &[u8],
    second: &[u8],
    n: u32,
    one: &mut [u8; 1055],
    two: &mut [u8; 1055],
) -> Twins
    ensures { (result ≡ twins_of d first.now second.now n)
        × (one.new ≡ sets one.old 0 (twin_in d first.now second.now n first.now))
        × (two.new ≡ sets two.old 0 (twin_in d first.now second.now n second.now)) }
{
    let answer = judge(d, first, second, n);
    if answer.is_err() {
        return Twins { answer, length: 0 };
    }
    let length = lay_twins(first, second, drive::shape_of(d), n, one, two) as u32;
    Twins { answer, length }
}
