// A buffer of sectors, encrypted, that a write lays flake by flake. The sectors of one flake at a time are decrypted in scratch, nine
// of them at most, 4,608 bytes on the stack; so no second copy of the contents comes about.
ghost use Rattle.std.specs.Prelude.{◌≡◌, ◌+◌, ◌*◌, ◌%◌, ◌<◌, ◌≤◌, ◌^◌, length};
ghost use Rattle.std.proofs.Common.{rules};
ghost use Rattle.base.specs.Lists.{part};
ghost use Rattle.layout.specs.Spots.{capacity};
ghost use Rattle.sectors.proofs.SectorLaws.{length-decrypted};
ghost use Rattle.handing.specs.Handing.{import_bytes};

use keys::Lock;
use laying::{Source, Written};
use layout::Shape;
use nuggets::Nugget;

// `one` is the key for sectors, `two` the key for tweaks.
#[derive(Clone, Copy)]
pub struct Encrypted<'a> {
    pub one: [u8; 32],
    pub two: [u8; 32],
    pub bytes: &'a [u8],
    ghost whole: { length bytes.now % 512 ≡ 0 },
    ghost few: { length bytes.now < 2 ^ 33 },
}

impl Encrypted<'_> {
    // The sectors of the buffer from number `first` on, as many as fill scratch, decrypted in it.
    fn open(&self, scratch: &mut [u8], first: usize)
        requires { (length scratch.old % 512 ≡ 0) × (512 * first + length scratch.old ≤ length self.now.bytes.now) }
        ensures { scratch.new ≡ part (512 * first) (length scratch.old) (import_bytes self.now.one self.now.two self.now.bytes.now) }
    {
        let at = 512 * first;
        let end = at + scratch.len();
        scratch.copy_from_slice(&self.bytes[at..end]);
        sectors::decrypt(scratch, self.one, self.two, first as u64);
    }
}

impl Source for Encrypted<'_> {
    ghost offset = { λ x. 0 };

    ghost bytes = { λ x. import_bytes x.one x.two x.bytes.now };

    ghost fits = { λ x s. length x.bytes.now ≡ capacity s };

    fn offset(&self) -> usize {
        0
    }

    fn len(&self) -> usize {
        self.bytes.len()
    }

    // By the sectors from that of the flake's first byte to that of its last.
    fn lay_flake(&self, vol: &mut [u8], s: Shape, g: Nugget, lock: Lock, f: u32) {
        let start = layout::offset_of(s, lock.number, f, 0);
        let at = start % 512;
        let end = at + s.f as usize;
        let n = end.next_multiple_of(512);
        let mut scratch = [0u8; 4608];
        self.open(&mut scratch[0..n], start / 512);
        let mine = Written {
            offset: start,
            bytes: &scratch[at..end],
        };
        mine.lay_flake(vol, s, g, lock, f);
    }

    ghost within = { λ x s h. let long = length-decrypted x.one x.two 0 x.bytes.now x.whole in Prim.search rules };
}
