// The shape of a volume, its limits, L, and where each part, record, tag, node and flake begins.
// It touches `base` alone.
#![tactic(auto)]

ghost use Rattle.std.specs.Prelude.{◌≡◌, ◌+◌, ◌*◌, ◌<◌, ◌^◌};
ghost use Rattle.base.specs.Pick.{pick};
ghost use Rattle.layout.specs.Shape.{sized, known_version, known_cipher, known, in_limits, width_of, height_of, leaves, within};
ghost use Rattle.layout.specs.Parts.{tags_at, tree_at, flakes_at, length_of, record_at, tag_at, node_at, flake_at};
ghost use Rattle.layout.specs.Spots.{spot_at, nowhere, offset_at, capacity};

// "Nuggets N", "Flakes per nugget P", "Flake size F", and under which version and cipher the volume is laid out.
// Numbers, no enums: a head or a caller in C may hold any, and test 1 answers what isn't known.
#[derive(Clone, Copy)]
pub struct Shape {
    pub n: u32,
    pub p: u32,
    pub f: u32,
    pub version: u16,
    pub cipher: u8,
}

// Where an offset lies: "nugget 1, flake 1, byte 8".
#[derive(Clone, Copy)]
pub struct Spot {
    pub nugget: usize,
    pub flake: usize,
    pub byte: usize,
}

// Whether N, P and F are within document 01's limits.
fn are_sized(s: Shape) -> bool
    ensures { result ≡ sized s }
{
    if s.n < 1 {
        return false;
    }
    if 16384 < s.n {
        return false;
    }
    if s.p < 1 {
        return false;
    }
    if 64 < s.p {
        return false;
    }
    if s.f < 64 {
        return false;
    }
    if 4096 < s.f {
        return false;
    }
    s.f % 64 == 0
}

// Whether the version is one that there is.
pub fn known_version(version: u16) -> bool
    ensures { result ≡ known_version version }
{
    version == 1 || version == 2
}

// Whether the cipher is one that there is: ChaCha20 or AES.
fn known_cipher(cipher: u8) -> bool
    ensures { result ≡ known_cipher cipher }
{
    cipher == 0 || cipher == 16
}

// Whether both are.
fn are_known(s: Shape) -> bool
    ensures { result ≡ known s }
{
    known_version(s.version) && known_cipher(s.cipher)
}

// Whether the shape is one that a volume may have.
pub fn in_limits(s: Shape) -> bool
    ensures { result ≡ in_limits s }
{
    are_sized(s) && are_known(s)
}

// How many bytes a record has.
pub fn width_of(s: Shape) -> usize
    ensures { result ≡ width_of s }
{
    if s.version == 1 { 18 } else { 26 }
}

// L is 2 to this height: 32 less the leading zeros of N - 1.
pub fn height_of(n: u32) -> u32
    ensures { result ≡ height_of n }
{
    if n == 0 {
        return 0;
    }
    32 - (n - 1).leading_zeros()
}

// "L is the smallest power of two not below N."
pub fn leaves_of(n: u32) -> usize
    ensures { result ≡ leaves n }
{
    1usize << height_of(n)
}

// A product of numbers of a shape, which always fits.
fn times(a: usize, b: usize) -> usize
    requires { (a < 2 ^ 40) × (b < 2 ^ 13) }
    ensures { result ≡ a * b }
{
    a * b
}

pub fn tags_at(s: Shape) -> usize
    ensures { result ≡ within s (tags_at s) }
{
    if in_limits(s) {
        104 + times(s.n as usize, width_of(s))
    } else {
        0
    }
}

pub fn tree_at(s: Shape) -> usize
    ensures { result ≡ within s (tree_at s) }
{
    if in_limits(s) {
        tags_at(s) + 16 * times(s.n as usize, s.p as usize)
    } else {
        0
    }
}

pub fn flakes_at(s: Shape) -> usize
    ensures { result ≡ within s (flakes_at s) }
{
    if in_limits(s) {
        tree_at(s) + 32 * (2 * leaves_of(s.n) - 1)
    } else {
        0
    }
}

// How many bytes the contents have: N P F.
pub fn capacity_of(s: Shape) -> usize
    ensures { result ≡ within s (capacity s) }
{
    if in_limits(s) {
        times(times(s.n as usize, s.p as usize), s.f as usize)
    } else {
        0
    }
}

// "volume length is [..] the sum of the parts"
pub fn length_of(s: Shape) -> usize
    ensures { result ≡ within s (length_of s) }
{
    if in_limits(s) {
        flakes_at(s) + capacity_of(s)
    } else {
        0
    }
}

pub fn record_at(s: Shape, n: u32) -> usize
    ensures { result ≡ record_at s n }
{
    104 + times(n as usize, width_of(s))
}

// The number of flake f of nugget n, counted over all nuggets.
fn index_of(p: u32, n: u32, f: u32) -> usize
    requires { p < 2 ^ 7 }
    ensures { (result ≡ n * p + f) × (result < 2 ^ 40) }
{
    times(n as usize, p as usize) + (f as usize)
}

pub fn tag_at(s: Shape, n: u32, f: u32) -> usize
    ensures { result ≡ within s (tag_at s n f) }
{
    if in_limits(s) {
        tags_at(s) + 16 * index_of(s.p, n, f)
    } else {
        0
    }
}

pub fn node_at(s: Shape, i: u32) -> usize
    ensures { result ≡ within s (node_at s i) }
{
    if in_limits(s) {
        tree_at(s) + 32 * (i as usize) - 32
    } else {
        0
    }
}

pub fn flake_at(s: Shape, n: u32, f: u32) -> usize
    ensures { result ≡ within s (flake_at s n f) }
{
    if in_limits(s) {
        flakes_at(s) + times(index_of(s.p, n, f), s.f as usize)
    } else {
        0
    }
}

// Where offset o of the contents lies; nowhere, all zero, in a shape out of limits.
pub fn spot_of(s: Shape, o: usize) -> Spot
    ensures { result ≡ pick (in_limits s) (spot_at s o) nowhere }
{
    if in_limits(s) {
        let f = s.f as usize;
        let p = s.p as usize;
        Spot {
            nugget: o / f / p,
            flake: o / f % p,
            byte: o % f,
        }
    } else {
        Spot {
            nugget: 0,
            flake: 0,
            byte: 0,
        }
    }
}

// The offset of byte b of flake f of nugget n.
pub fn offset_of(s: Shape, n: u32, f: u32, b: u32) -> usize
    ensures { result ≡ within s (offset_at s n f b) }
{
    if in_limits(s) {
        times(index_of(s.p, n, f), s.f as usize) + (b as usize)
    } else {
        0
    }
}
