// Messages taken in pieces of a few bytes.
ghost use Rattle.std.specs.Prelude.{◌<◌};

use crate::hex::Hex;

// As much as any message here has.
pub const WHOLE: usize = 1024;

// Below, at and above the length of a block of either kind.
pub const STEPS: [usize; 7] = [1, 15, 16, 17, 63, 64, 65];

// What takes a message piece by piece, and gives N bytes at its end.
pub trait Digest<const N: usize>: Copy {
    fn absorb(self, m: &[u8]) -> Self;

    fn finish(self) -> [u8; N];
}

impl Digest<32> for blake2s::State {
    fn absorb(self, m: &[u8]) -> Self {
        blake2s::absorb(self, m)
    }

    fn finish(self) -> [u8; 32] {
        blake2s::finish(self)
    }
}

impl Digest<16> for poly1305::Authenticator {
    fn absorb(self, m: &[u8]) -> Self {
        poly1305::absorb(self, m)
    }

    fn finish(self) -> [u8; 16] {
        poly1305::finish(self)
    }
}

// The digest of m, absorbed in pieces of `step` bytes.
pub fn digest_of<const N: usize, D: Digest<N>>(start: D, m: &[u8], step: usize) -> [u8; N]
    requires { 0 < step }
{
    let mut d = start;
    for piece in m.chunks(step) {
        let next = d.absorb(piece);
        d = next;
    }
    d.finish()
}

pub fn show(rt: &impl Print, name: &str, step: usize, digest: &[u8]) {
    let _ = println!(rt; "{name}, pieces of {step}: {}", Hex(digest));
}
