// One nugget of a lent volume: its key, its tests, what its flakes read as, and which of them a range touches.
// It touches `keys` for pads and tags, `tree` for paths, `records`, `layout`, `drive`, `words` and `answers`.
#![tactic(auto)]

ghost use Rattle.std.specs.Prelude.{◌≡◌, true, ◌+◌, ◌-◌, ◌<◌, ◌≤◌, ◌^◌, ◌/◌, length};
ghost use Rattle.base.specs.Lists.{part};
ghost use Rattle.layout.specs.Shape.{in_limits};
ghost use Rattle.layout.specs.Spots.{capacity};
ghost use Rattle.drive.specs.Drive.{shape_of};
ghost use Rattle.nuggets.specs.Nugget.{secret_for, lock_by, nugget_of, contents_in};
ghost use Rattle.nuggets.specs.Tests.{good_flake, passes, flakes_tested, path_for, nugget_read};
ghost use Rattle.nuggets.specs.Touched.{touched_of, span_of, fits_in};
ghost use Rattle.layout.specs.Shaped.{Shaped};

use answers::{Answer, Place, Refusal};
use drive::Drive;
use keys::Lock;
use layout::Shape;

// What the tests and the contents of one nugget rest on.
#[derive(Clone, Copy)]
pub struct Nugget {
    pub lock: Lock,
    pub held: u64,
}

// The nuggets from the first up to the end.
#[derive(Clone, Copy)]
pub struct Span {
    pub first: u32,
    pub end: u32,
}

// "One less means: under the old secret."
pub fn secret_for(d: Drive, epoch: u16) -> [u8; 32]
    ensures { result ≡ secret_for d epoch }
{
    if epoch == d.epoch { d.present } else { d.old }
}

// "Nugget key: keyed with the nugget's secret, `N`, salt, nugget": made once for all flakes of the nugget.
pub fn lock_by(s: Shape, salt: [u8; 16], secret: [u8; 32], n: u32, k: u64) -> Lock
    ensures { result ≡ lock_by s salt secret n k }
{
    let key = keys::nugget_key(secret, salt, n);
    Lock {
        number: n,
        key,
        keycount: k,
        version: s.version,
        cipher: s.cipher,
    }
}

// The nugget as its record says.
pub fn nugget_of(d: Drive, vol: &[u8], n: u32) -> Nugget
    requires { Shaped (shape_of d) vol.now × (n < d.n) }
    ensures { result ≡ nugget_of d vol.now n }
{
    let s = drive::shape_of(d);
    let r = records::read(vol, s, n);
    let secret = secret_for(d, r.epoch);
    Nugget {
        lock: lock_by(s, d.salt, secret, n, r.keycount),
        held: r.held,
    }
}

// The tag that the stored flake has under its nugget's lock is the one beside it.
fn good_flake(vol: &[u8], s: Shape, g: Nugget, f: u32) -> bool
    requires { Shaped s vol.now × (g.lock.number < s.n) × (f < s.p) }
    ensures { result ≡ good_flake s vol.now g f }
{
    let at = layout::flake_at(s, g.lock.number, f);
    let end = at + (s.f as usize);
    let tag = layout::tag_at(s, g.lock.number, f);
    let tag_end = tag + 16;
    let made = keys::tag_of(&vol[at..end], g.lock, f);
    words::equal(&vol[tag..tag_end], &made)
}

// A flake outside the set isn't looked at.
fn flake_passes(vol: &[u8], s: Shape, g: Nugget, mask: u64, f: u32) -> bool
    requires { Shaped s vol.now × (g.lock.number < s.n) × (f < s.p) }
    ensures { result ≡ passes s vol.now g mask f }
{
    !records::has(mask, f) || good_flake(vol, s, g, f)
}

// "flakes, ascending": the first of the set whose tag differs.
pub fn flakes(vol: &[u8], s: Shape, g: Nugget, mask: u64) -> Answer
    requires { Shaped s vol.now × (g.lock.number < s.n) }
    ensures { result ≡ flakes_tested s vol.now g mask }
{
    for f in 0..s.p {
        if !flake_passes(vol, s, g, mask, f) {
            return Err(Refusal::Altered(Place::Flake(g.lock.number, f)));
        }
    }
    Ok(())
}

// The path of nugget n, its record held against the drive.
pub fn test_path(d: Drive, vol: &[u8], n: u32) -> Answer
    requires { Shaped (shape_of d) vol.now × (n < d.n) }
    ensures { result ≡ path_for d vol.now n }
{
    tree::path(vol, drive::shape_of(d), drive::gauge_of(d), n)
}

// A read's tests of nugget n: "path"; then "touched present flakes".
pub fn test_read(d: Drive, vol: &[u8], n: u32, touched: u64) -> Answer
    requires { Shaped (shape_of d) vol.now × (n < d.n) }
    ensures { result ≡ nugget_read d vol.now n touched }
{
    test_path(d, vol, n)?;
    let g = nugget_of(d, vol, n);
    flakes(vol, drive::shape_of(d), g, g.held & touched)
}

// The contents of flake f from its byte b on, as many as the buffer takes: "Absent flakes give zeros."
pub fn piece(vol: &[u8], s: Shape, g: Nugget, f: u32, b: usize, buf: &mut [u8])
    requires { Shaped s vol.now × (g.lock.number < s.n) × (f < s.p) × (b + length buf.old ≤ s.f) }
    ensures { buf.new ≡ part b (length buf.old) (contents_in s vol.now g f) }
{
    if records::has(g.held, f) {
        let at = layout::flake_at(s, g.lock.number, f) + b;
        let end = at + buf.len();
        words::copy(&mut *buf, 0, &vol[at..end]);
        keys::lay_from(&mut *buf, g.lock, s.f as usize, f, b);
    } else {
        words::clear(&mut *buf);
    }
}

// "let T be the flakes touched": the flakes of nugget n that the range meets, by the first and the last of them.
pub fn touched(s: Shape, o: usize, len: usize, n: u32) -> u64
    requires { (in_limits s ≡ true) × (0 < len) × (o + len ≤ capacity s) × (n < s.n) }
    ensures { result ≡ touched_of s o len n }
{
    let size = s.f as usize;
    let count = s.p as usize;
    let base = n as usize * count;
    let last = (o + len - 1) / size;
    if last < base {
        return 0;
    }
    let from = (o / size).saturating_sub(base);
    let to = (last - base).min(count - 1);
    records::range(from as u32, to as u32)
}

// The nuggets that a range of at least one byte meets.
pub fn span_of(s: Shape, o: usize, len: usize) -> Span
    requires { (in_limits s ≡ true) × (0 < len) × (o + len ≤ capacity s) }
    ensures { (result ≡ span_of s o len) × (result.end ≤ s.n) }
{
    let first = layout::spot_of(s, o);
    let last = layout::spot_of(s, o + (len - 1));
    Span {
        first: first.nugget as u32,
        end: (last.nugget + 1) as u32,
    }
}

// 8: "offset, length [..] past the end". The sum isn't made, so nothing rolls over.
pub fn fits(s: Shape, offset: u64, len: usize) -> bool
    ensures { result ≡ fits_in s offset len }
{
    let size = layout::capacity_of(s);
    len <= size && offset <= (size - len) as u64
}
