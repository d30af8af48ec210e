// Where a change's new bytes come from: a slice of the caller's, or whatever else lays them flake by flake.
ghost use Rattle.std.specs.Prelude.{◌≡◌, ℕ, List, ◌+◌, ◌<◌, ◌≤◌, length};
ghost use Rattle.layout.specs.declared.Shape.{Shape};
ghost use Rattle.layout.specs.Shaped.{Shaped};
ghost use Rattle.layout.specs.Spots.{capacity};
ghost use Rattle.nuggets.specs.Nugget.{contents_in};
ghost use Rattle.changes.specs.Laid.{written, laid_flake};

use keys::Lock;
use layout::Shape;
use nuggets::Nugget;
use relaying::{Flake, Written};

pub trait Source {
    // The offset of the first new byte, all new bytes, and which drives they fit.
    ghost offset: { Self → ℕ };

    ghost bytes: { Self → List ℕ };

    ghost fits: { Self → Shape → Type 0 };

    fn offset(&self) -> usize
        ensures { result ≡ offset self.now };

    fn len(&self) -> usize
        ensures { result ≡ length (bytes self.now) };

    // Flake f and its tag, in the volume.
    fn lay_flake(&self, vol: &mut [u8], s: Shape, g: Nugget, lock: Lock, f: u32)
        requires { Shaped s vol.old × (lock.number < s.n) × (f < s.p) × fits self.now s × (g.lock.number ≡ lock.number) }
        ensures { vol.new ≡ laid_flake s lock f
            (written s (offset self.now) (bytes self.now) lock.number f (contents_in s vol.old g f)) vol.old };

    ghost within: { (x : Self) (s : Shape) → fits x s → offset x + length (bytes x) ≤ capacity s };
}

impl Source for Written<'_> {
    ghost offset = { λ x. x.offset };

    ghost bytes = { λ x. x.bytes.now };

    ghost fits = { λ x s. x.offset + length x.bytes.now ≤ capacity s };

    fn offset(&self) -> usize {
        self.offset
    }

    fn len(&self) -> usize {
        self.bytes.len()
    }

    fn lay_flake(&self, vol: &mut [u8], s: Shape, g: Nugget, lock: Lock, f: u32) {
        let at = layout::flake_at(s, lock.number, f);
        let flake = Flake {
            nugget: g,
            lock,
            number: f,
            size: s.f as usize,
            start: layout::offset_of(s, lock.number, f, 0),
        };
        let tag = relaying::lay_anew(&mut vol[at..at + flake.size], flake, self);
        words::copy(vol, layout::tag_at(s, lock.number, f), &tag);
    }

    ghost within = { λ x s h. h };
}
