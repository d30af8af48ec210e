ghost use Rattle.std.specs.Prelude.{◌≡◌, ◌<◌};
ghost use Rattle.layout.specs.Shaped.{Shaped};
ghost use Rattle.drive.specs.Drive.{shape_of};
ghost use Rattle.records.specs.Journal.{bit};
ghost use Rattle.records.specs.Listing.{pads_of};
ghost use Rattle.changes.specs.Laid.{laid};
ghost use Rattle.changes.specs.Write.{new_contents};

use crate::source::Source;
use drive::Drive;

// The flakes of the set, ascending. A flake not laid yet still stands as it was, so nothing is kept aside.
pub fn lay_flakes<S: Source>(d: Drive, vol: &mut [u8], n: u32, k: u64, mask: u64, new: &S)
    requires { Shaped (shape_of d) vol.old × (n < d.n) × S.fits new.now (shape_of d) }
    ensures { vol.new ≡ laid (shape_of d) d.salt (new_contents d vol.old (S.offset new.now) (S.bytes new.now))
        (pads_of n k d.present (bit mask) d.p) vol.old }
{
    let s = drive::shape_of(d);
    let g = nuggets::nugget_of(d, vol, n);
    let lock = nuggets::lock_by(s, d.salt, d.present, n, k);
    for f in 0..d.p {
        if records::has(mask, f) {
            new.lay_flake(vol, s, g, lock, f);
        }
    }
}
