// A flake laid anew where it lies, piece by piece: the new keystream in scratch; the written bytes over it; elsewhere, if the flake
// is held, the old keystream and then the stored bytes. What scratch then holds goes to its place. So neither scratch nor the
// volume ever holds contents, and each byte of the flake is stored once, as it stays.
// It touches `keys` for pads and tags, `records` and `nuggets` for what is held, and `words`; of `changes` the definitions alone.
#![tactic(auto)]

mod parts;

ghost use Rattle.std.specs.Prelude.{◌≡◌, ◌+◌, ◌%◌, ◌<◌, ◌≤◌, ◌^◌, length};
ghost use Rattle.keys.specs.Pads.{under};
ghost use Rattle.keys.specs.Tags.{tag_of};
ghost use Rattle.relaying.specs.Flake.{anew, Met, laid_beside, relayed, relaid};

pub use parts::{Flake, Written};

// The bytes that a piece and the written bytes share: n of them, from byte `at` of the piece and byte `from` of the written on.
#[derive(Clone, Copy)]
struct Meeting {
    at: usize,
    n: usize,
    from: usize,
}

fn meet(start: usize, size: usize, o: usize, len: usize) -> Meeting
    requires { (start + size < 2 ^ 64) × (o + len < 2 ^ 64) }
    ensures { Met start size o len result.at result.n result.from }
{
    let first = start.max(o);
    let last = (start + size).min(o + len);
    if first < last {
        Meeting {
            at: first - start,
            n: last - first,
            from: first - o,
        }
    } else {
        Meeting {
            at: 0,
            n: 0,
            from: 0,
        }
    }
}

// x laid over k but for the bytes from `at` to `end`.
fn lay_beside(k: &mut [u8], x: &[u8], at: usize, end: usize)
    requires { (at ≤ end) × (end ≤ length k.old) × (length k.old ≤ length x.now) }
    ensures { k.new ≡ laid_beside at end x.now k.old }
{
    words::xor(&mut k[0..at], x);
    words::xor(&mut k[end..], &x[end..]);
}

// New keystream becomes what is to be stored: the written bytes over it; beside them the old keystream and only then the stored
// bytes, so that these are never laid open. Where nothing is held, and where all is written, nothing is beside them.
fn relay(k: &mut [u8], stored: &[u8], flake: Flake, at: usize, written: &Written<'_>)
    requires { (at % 64 ≡ 0) × (length k.old ≤ 512) × (at + length k.old ≤ flake.size) × (length stored.now ≡ length k.old) }
    ensures { k.new ≡ relayed flake.nugget flake.number flake.size at (flake.start + at) written.now.offset written.now.bytes.now stored.now k.old }
{
    let m = meet(
        flake.start + at,
        k.len(),
        written.offset,
        written.bytes.len(),
    );
    let end = m.at + m.n;
    words::xor(&mut k[m.at..end], &written.bytes[m.from..m.from + m.n]);
    if records::has(flake.nugget.held, flake.number) && m.n < k.len() {
        let mut old = [0u8; 512];
        keys::pad_from(&mut old, flake.nugget.lock, flake.size, flake.number, at);
        lay_beside(k, &old, m.at, end);
        lay_beside(k, stored, m.at, end);
    }
}

// One piece, from byte `at` of the flake on.
fn lay_piece(piece: &mut [u8], flake: Flake, at: usize, written: &Written<'_>)
    requires { (at % 64 ≡ 0) × (length piece.old ≤ 512) × (at + length piece.old ≤ flake.size) }
    ensures { piece.new ≡ relaid flake.nugget flake.lock flake.number flake.size flake.start written.now.offset written.now.bytes.now at piece.old }
{
    let n = piece.len();
    let mut k = [0u8; 512];
    keys::pad_from(&mut k, flake.lock, flake.size, flake.number, at);
    relay(&mut k[0..n], piece, flake, at, written);
    piece.copy_from_slice(&k[0..n]);
}

// A stored flake becomes its new contents under the new pad; the tag is over what is then stored.
pub fn lay_anew(stored: &mut [u8], flake: Flake, written: &Written<'_>) -> [u8; 16]
    requires { length stored.old ≡ flake.size }
    ensures { (result ≡ tag_of flake.lock flake.number (under flake.lock flake.number (length stored.old) (anew flake.nugget flake.number flake.start written.now.offset written.now.bytes.now stored.old)))
        × (stored.new ≡ under flake.lock flake.number (length stored.old) (anew flake.nugget flake.number flake.start written.now.offset written.now.bytes.now stored.old)) }
{
    for at in (0..flake.size).step_by(512) {
        let end = flake.size.min(at + 512);
        lay_piece(&mut stored[at..end], flake, at, written);
    }
    keys::tag_of(stored, flake.lock, flake.number)
}
