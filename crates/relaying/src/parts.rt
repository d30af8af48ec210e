ghost use Rattle.std.specs.Prelude.{◌+◌, ◌<◌, ◌≤◌, ◌^◌, length};

use keys::Lock;
use nuggets::Nugget;

// A flake that is laid anew: the nugget as it stands, the lock of the new pad, and the offset of the first byte.
#[derive(Clone, Copy)]
pub struct Flake {
    pub nugget: Nugget,
    pub lock: Lock,
    pub number: u32,
    pub size: usize,
    pub start: usize,
    ghost short: { size ≤ 4096 },
    ghost low: { number < 64 },
    ghost within: { start + size < 2 ^ 64 },
}

// The bytes of a write, from an offset on.
#[derive(Clone, Copy)]
pub struct Written<'a> {
    pub offset: usize,
    pub bytes: &'a [u8],
    ghost within: { offset + length bytes.now < 2 ^ 64 },
}
