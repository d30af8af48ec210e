// Little-endian numbers in slices, 32-bit words, and the xor of bytes.
// It touches `base` alone.
#![tactic(auto)]

ghost use Rattle.std.specs.Prelude.{◌≡◌, ◌+◌, ◌<◌, ◌≤◌, ◌^◌, length, replicate};
ghost use Rattle.std.proofs.lemmas.List.Edits.{sets};
ghost use Rattle.base.specs.Lists.{part, same};
ghost use Rattle.words.specs.Word.{rotl, rotr};
ghost use Rattle.words.specs.Le.{num, le};
ghost use Rattle.words.specs.Xor.{xorl};

// Four words that a cipher's or a hash's round mixes together.
#[derive(Clone, Copy)]
pub struct Quad {
    pub a: u32,
    pub b: u32,
    pub c: u32,
    pub d: u32,
}

// RFC 8439 2.1: the rotation to the left.
pub fn rotate_left(x: u32, n: u32) -> u32
    requires { (0 < n) × (n < 32) }
    ensures { result ≡ rotl n x }
{
    x.rotate_left(n)
}

// RFC 7693 2.3: the rotation to the right.
pub fn rotate_right(x: u32, n: u32) -> u32
    requires { (0 < n) × (n < 32) }
    ensures { result ≡ rotr n x }
{
    x.rotate_right(n)
}

// The number whose k bytes, lowest first, stand at `at`.
pub fn load(s: &[u8], at: usize, k: usize) -> u64
    requires { (k ≤ 8) × (at + k ≤ length s.now) }
    ensures { (result ≡ num (part at k s.now)) × (result < 256 ^ k) }
{
    let mut r = 0;
    for b in s[at..at + k].iter().rev() {
        r = r * 256 + u64::from(*b);
    }
    r
}

// The 32-bit word at `at`.
pub fn load32(s: &[u8], at: usize) -> u32
    requires { at + 4 ≤ length s.now }
    ensures { result ≡ num (part at 4 s.now) }
{
    u32::from_le_bytes([s[at], s[at + 1], s[at + 2], s[at + 3]])
}

// The k lowest bytes of x stored at `at`, lowest first.
pub fn store(s: &mut [u8], at: usize, k: usize, x: u64)
    requires { at + k ≤ length s.old }
    ensures { s.new ≡ sets s.old at (le k x) }
{
    let mut y = x;
    for b in s[at..at + k].iter_mut() {
        *b = (y % 256) as u8;
        y /= 256;
    }
}

// The 32-bit word x stored at `at`.
pub fn store32(s: &mut [u8], at: usize, x: u32)
    requires { at + 4 ≤ length s.old }
    ensures { s.new ≡ sets s.old at (le 4 x) }
{
    copy(s, at, &x.to_le_bytes());
}

// All of `from` stored at `at`.
pub fn copy(s: &mut [u8], at: usize, from: &[u8])
    requires { at + length from.now ≤ length s.old }
    ensures { s.new ≡ sets s.old at from.now }
{
    // Byte by byte: of `copy_from_slice` the compiler makes calls of memmove, which hosts in C needn't have.
    for i in 0..from.len() {
        s[at + i] = from[i];
    }
}

// The N bytes at `at`.
pub fn taken<const N: usize>(s: &[u8], at: usize) -> [u8; N]
    requires { at + N ≤ length s.now }
    ensures { result ≡ part at N s.now }
{
    let mut out = [0; N];
    out.copy_from_slice(&s[at..at + N]);
    out
}

// The bytes of k laid over d.
pub fn xor(d: &mut [u8], k: &[u8])
    requires { length d.old ≤ length k.now }
    ensures { d.new ≡ xorl d.old k.now }
{
    // By the place: after a `zip` over `iter_mut` a proof knows no element of d.
    for (i, x) in d.iter_mut().enumerate() {
        *x ^= k[i];
    }
}

// Whether the two slices hold the same bytes.
pub fn equal(a: &[u8], b: &[u8]) -> bool
    ensures { result ≡ same a.now b.now }
{
    a == b
}

// Every byte becomes zero.
pub fn clear(s: &mut [u8])
    ensures { s.new ≡ replicate (length s.old) 0 }
{
    s.fill(0);
}
