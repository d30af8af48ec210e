// What a change stores, piece by piece: a nugget's flakes and tags, its record, its leaf and path, and the head.
// It touches `relaying` for each flake, `nuggets`, `keys`, `tree`, `nodes`, `records`, `drive`, `layout` and `words`; no flake is copied out of the volume.
#![tactic(auto)]

mod flake;
mod source;

ghost use Rattle.std.specs.Prelude.{◌≡◌, ◌<◌, ◌≤◌, length};
ghost use Rattle.layout.specs.Shaped.{Shaped};
ghost use Rattle.records.specs.Rule.{CanRise};
ghost use Rattle.records.specs.Listing.{pads_by};
ghost use Rattle.drive.specs.Drive.{shape_of, counter_top};
ghost use Rattle.changes.specs.Laid.{laid};
ghost use Rattle.changes.specs.Change.{idles, marked, tended, advanced, settled};
ghost use Rattle.changes.specs.Write.{new_contents};
ghost use Rattle.records.specs.Record.{record_of};

use drive::Drive;
use layout::Shape;
use records::Way;
pub use relaying::Written;
pub use source::Source;

// The flakes that the way enciphers: new contents under the pad of the keycount after it, and the tags over what is stored.
pub fn lay<S: Source>(d: Drive, vol: &mut [u8], n: u32, way: Way, new: &S)
    requires { Shaped (shape_of d) vol.old × (n < d.n) × S.fits new.now (shape_of d) × CanRise way (record_of (shape_of d) vol.old n) }
    ensures { vol.new ≡ laid (shape_of d) d.salt (new_contents d vol.old (S.offset new.now) (S.bytes new.now))
        (pads_by d.p way n (record_of (shape_of d) vol.old n) d.present) vol.old }
{
    let r = records::read(vol, drive::shape_of(d), n);
    let after = records::turn(way, d.epoch, r);
    let mask = records::enciphers(way, r);
    flake::lay_flakes(d, vol, n, after.keycount, mask, new);
}

// Whether the nugget stays as it is.
pub fn idle(way: Way) -> bool
    ensures { result ≡ idles way }
{
    matches!(way, Way::Idle)
}

// "The journal becomes J with T."; rekeyed: "keycount plus 1", "epoch set to the head's"; discarded: held bits cleared.
pub fn mark(d: Drive, vol: &mut [u8], n: u32, way: Way)
    requires { Shaped (shape_of d) vol.old × (n < d.n) × CanRise way (record_of (shape_of d) vol.old n) }
    ensures { vol.new ≡ marked (shape_of d) d.epoch way (record_of (shape_of d) vol.old n) n vol.old }
{
    if !idle(way) {
        let s = drive::shape_of(d);
        let r = records::read(vol, s, n);
        let after = records::turn(way, d.epoch, r);
        records::store(vol, s, n, after);
    }
}

// "leaf and path of each nugget it changed"
pub fn tend(vol: &mut [u8], s: Shape, n: u32, way: Way)
    requires { Shaped s vol.old × (n < s.n) }
    ensures { vol.new ≡ tended s way n vol.old }
{
    if !idle(way) {
        tree::renew(vol, s, n);
    }
}

// "renews the seal": the 104 bytes that the drive makes.
pub fn settle(d: Drive, vol: &mut [u8])
    requires { 104 ≤ length vol.old }
    ensures { vol.new ≡ settled d vol.old }
{
    words::copy(vol, 0, &drive::head(d));
}

// "adds 1 to the counter": the drive over a volume whose tree is renewed.
fn advanced_drive(d: Drive, vol: &[u8]) -> Drive
    requires { Shaped (shape_of d) vol.now × (d.counter < counter_top) }
    ensures { result ≡ advanced d vol.now }
{
    let node = nodes::first(vol, drive::shape_of(d));
    let kept = drive::kept_old(d.state, d.old);
    drive::headed(d, d.state, d.epoch, d.counter + 1, node, d.present, kept)
}

// The last stores of a change of nuggets: the drive with its counter and node 1, and the head that it makes.
pub fn advance(d: Drive, vol: &mut [u8]) -> Drive
    requires { Shaped (shape_of d) vol.old × (d.counter < counter_top) }
    ensures { (result ≡ advanced d vol.old) × (vol.new ≡ settled (advanced d vol.old) vol.old) }
{
    let next = advanced_drive(d, vol);
    settle(next, vol);
    next
}
