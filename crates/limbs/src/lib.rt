// Numbers modulo 2^130 - 5 in five limbs of 26 bits, and the turns of RFC 8439 2.5.1 over 16-byte blocks.
// It touches `base` and `words`.
#![tactic(auto)]

mod lanes;

ghost use Rattle.std.specs.Prelude.{◌≡◌, ◌+◌, ◌*◌, ◌%◌, ◌^◌, ◌<◌, ◌≤◌, length};
ghost use Rattle.std.specs.Int.{from_bool};
ghost use Rattle.base.specs.Lists.{part};
ghost use Rattle.words.specs.Le.{num, le};
ghost use Rattle.limbs.specs.Limbs.{at, value, limbs_of, quad, p};
ghost use Rattle.limbs.specs.Bounds.{Below, Reduced, Cuts, Ripples, Stands, Holds, Sums, Fives, Ran, Worded, steps_by};
ghost use Rattle.limbs.specs.Turns.{turns};

#[derive(Clone, Copy, Default)]
pub struct Limbs {
    pub l0: u32,
    pub l1: u32,
    pub l2: u32,
    pub l3: u32,
    pub l4: u32,
}

#[derive(Clone, Copy)]
struct Cut {
    low: u32,
    high: u64,
}

#[derive(Clone, Copy)]
struct Rippled {
    low: Limbs,
    top: u64,
}

// What numbers are multiplied by, and five times each limb of it: what a limb counts where its product leaves the top.
#[derive(Clone, Copy)]
struct Multiplier {
    r: Limbs,
    v: Limbs,
    ghost loose: { Below (2 ^ 26 + 2 ^ 20) r },
    ghost five: { Fives r v },
}

impl Multiplier {
    fn new(r: Limbs) -> Self
        requires { Below (2 ^ 26 + 2 ^ 20) r }
        ensures { result.r ≡ r }
    {
        Multiplier {
            r,
            v: Limbs {
                l0: 5 * r.l0,
                l1: 5 * r.l1,
                l2: 5 * r.l2,
                l3: 5 * r.l3,
                l4: 5 * r.l4,
            },
        }
    }
}

fn split(x: u64) -> Cut
    ensures { Cuts x result }
{
    Cut {
        low: (x % 0x400_0000) as u32,
        high: x / 0x400_0000,
    }
}

fn ripple(h: Limbs, x: u64) -> Rippled
    requires { x < 2 ^ 62 }
    ensures { Ripples h.l0 h.l1 h.l2 h.l3 h.l4 x result }
{
    let c0 = split(u64::from(h.l0) + x);
    let c1 = split(u64::from(h.l1) + c0.high);
    let c2 = split(u64::from(h.l2) + c1.high);
    let c3 = split(u64::from(h.l3) + c2.high);
    let c4 = split(u64::from(h.l4) + c3.high);
    Rippled {
        low: Limbs {
            l0: c0.low,
            l1: c1.low,
            l2: c2.low,
            l3: c3.low,
            l4: c4.low,
        },
        top: c4.high,
    }
}

// 2^130 is 5 modulo p, so what leaves the top comes back five times at the bottom. Two chains of carries run side by side.
fn carry(a: u64, b: u64, c: u64, d: u64, e: u64) -> Limbs
    requires { (a < 2 ^ 62) × (b < 2 ^ 62) × (c < 2 ^ 62) × (d < 2 ^ 62) × (e < 2 ^ 62) }
    ensures { Stands (at (2 ^ 26) a b c d e) result }
{
    let c0 = split(a);
    let c3 = split(d);
    let c1 = split(b + c0.high);
    let c4 = split(e + c3.high);
    let c2 = split(c + c1.high);
    let u = split(u64::from(c0.low) + 5 * c4.high);
    let w = split(u64::from(c3.low) + c2.high);
    Limbs {
        l0: u.low,
        l1: c1.low + (u.high as u32),
        l2: c2.low,
        l3: w.low,
        l4: c4.low + (w.high as u32),
    }
}

fn times(a: u32, b: u32) -> u64
    requires { (a < 2 ^ 29) × (b < 2 ^ 29) }
    ensures { (result ≡ a * b) × (result < 2 ^ 58) }
{
    u64::from(a) * u64::from(b)
}

// The factors one by one: a row of a product has limbs of r and of its fives, and stands nowhere as an array.
fn dot(h: Limbs, a: u32, b: u32, c: u32, d: u32, e: u32) -> u64
    requires { Below (2 ^ 29) h × (a < 2 ^ 29) × (b < 2 ^ 29) × (c < 2 ^ 29) × (d < 2 ^ 29) × (e < 2 ^ 29) }
    ensures { (result ≡ h.l0 * a + h.l1 * b + h.l2 * c + h.l3 * d + h.l4 * e) × (result < 2 ^ 61) }
{
    times(h.l0, a) + times(h.l1, b) + times(h.l2, c) + times(h.l3, d) + times(h.l4, e)
}

fn mul(h: Limbs, by: Multiplier) -> Limbs
    requires { Below (2 ^ 29) h }
    ensures { Stands (value h * value by.r) result }
{
    let Multiplier { r, v } = by;
    let d0 = dot(h, r.l0, v.l4, v.l3, v.l2, v.l1);
    let d1 = dot(h, r.l1, r.l0, v.l4, v.l3, v.l2);
    let d2 = dot(h, r.l2, r.l1, r.l0, v.l4, v.l3);
    let d3 = dot(h, r.l3, r.l2, r.l1, r.l0, v.l4);
    let d4 = dot(h, r.l4, r.l3, r.l2, r.l1, r.l0);
    carry(d0, d1, d2, d3, d4)
}

// The digits of a number of four words; with those of a whole block the 1 behind its bytes, at bit 128.
fn join(a: u32, b: u32, c: u32, d: u32, whole: bool) -> Limbs
    ensures { Holds (quad a b c d + 2 ^ 104 * (from_bool whole * 2 ^ 24)) result }
{
    let lo = u64::from(a) + 0x1_0000_0000 * u64::from(b);
    let hi = u64::from(c) + 0x1_0000_0000 * u64::from(d);
    Limbs {
        l0: (lo % 0x400_0000) as u32,
        l1: (lo / 0x400_0000 % 0x400_0000) as u32,
        l2: (lo / 0x10_0000_0000_0000 + hi % 0x4000 * 0x1000) as u32,
        l3: (hi / 0x4000 % 0x400_0000) as u32,
        l4: (hi / 0x100_0000_0000) as u32 | u32::from(whole) * 0x100_0000,
    }
}

// The digits of a number of four words.
pub fn pack(a: u32, b: u32, c: u32, d: u32) -> Limbs
    ensures { result ≡ limbs_of (quad a b c d) }
{
    join(a, b, c, d, false)
}

// Both numbers' limbs added, with no carry.
fn add(a: Limbs, b: Limbs) -> Limbs
    requires { Below (2 ^ 28) a × Below (2 ^ 28) b }
    ensures { Sums a b result }
{
    Limbs {
        l0: a.l0 + b.l0,
        l1: a.l1 + b.l1,
        l2: a.l2 + b.l2,
        l3: a.l3 + b.l3,
        l4: a.l4 + b.l4,
    }
}

// The 16 bytes at `at` as a number, with the 1 behind a whole block. A slice and a place in it, as `words` loads take them.
fn number(m: &[u8], at: usize, whole: bool) -> Limbs
    requires { at + 16 ≤ length m.now }
    ensures { Holds (num (part at 16 m.now) + 2 ^ 104 * (from_bool whole * 2 ^ 24)) result }
{
    let a = words::load32(m, at);
    let b = words::load32(m, at + 4);
    let c = words::load32(m, at + 8);
    let d = words::load32(m, at + 12);
    join(a, b, c, d, whole)
}

// One turn with the 16 bytes at `at`.
fn turn_at(h: Limbs, by: Multiplier, m: &[u8], at: usize, whole: bool) -> Limbs
    requires { Below (2 ^ 28) h × (at + 16 ≤ length m.now) }
    ensures { Stands ((value h + (num (part at 16 m.now) + 2 ^ 104 * (from_bool whole * 2 ^ 24))) * value by.r) result }
{
    mul(add(h, number(m, at, whole)), by)
}

// n turns with the first blocks of m, or a itself. A turn is called from here alone, so that it is laid into the loop.
fn run(a: Limbs, by: Multiplier, m: &[u8], n: usize, whole: bool) -> Limbs
    requires { Below (2 ^ 28) a × (n ≡ 0 → Below (2 ^ 26 + 2 ^ 20) a) × (16 * n ≤ length m.now) }
    ensures { Ran (steps_by (from_bool whole * 2 ^ 24) n (value by.r) (value a % p) m.now) result }
{
    let mut h = a;
    for i in 0..n {
        h = turn_at(h, by, m, 16 * i, whole);
    }
    h
}

// The digits of the remainder: p is subtracted once where adding 5 leaves the top.
fn freeze(h: Limbs) -> Limbs
    requires { Below (2 ^ 26 + 2 ^ 20) h }
    ensures { result ≡ limbs_of (value h % p) }
{
    let over = ripple(h, 5);
    ripple(h, 5 * over.top).low
}

// n turns with the first blocks of m. With few blocks the power of r and the sum of the lanes cost more than lanes spare.
pub fn blocks(a: Limbs, r: Limbs, m: &[u8], n: usize) -> Limbs
    requires { Reduced a × Below (2 ^ 26) r × (16 * n ≤ length m.now) }
    ensures { result ≡ limbs_of (turns n (value r) (value a) m.now) }
{
    let by = Multiplier::new(r);
    if n < 32 {
        return freeze(run(a, by, m, n, true));
    }
    let g = n / 4;
    let h = lanes::run_four(a, by, m, g);
    freeze(run(h, by, &m[64 * g..], n % 4, true))
}

// The turn of a last block, whose 1 stands among the 16 bytes.
pub fn last(a: Limbs, r: Limbs, b: &[u8]) -> Limbs
    requires { Reduced a × Below (2 ^ 26) r × (length b.now ≡ 16) }
    ensures { result ≡ limbs_of (value r * (value a + num b.now) % p) }
{
    freeze(run(a, Multiplier::new(r), b, 1, false))
}

// The 32-bit words of the digits, lowest first.
fn unpack(x: Limbs) -> [u32; 4]
    requires { Below (2 ^ 26) x }
    ensures { Worded x result }
{
    [
        x.l0 + x.l1 % 0x40 * 0x400_0000,
        x.l1 / 0x40 + x.l2 % 0x1000 * 0x10_0000,
        x.l2 / 0x1000 + x.l3 % 0x4_0000 * 0x4000,
        x.l3 / 0x4_0000 + x.l4 % 0x100_0000 * 0x100,
    ]
}

// The 16 lowest bytes of the sum.
pub fn total(a: Limbs, s: Limbs) -> [u8; 16]
    requires { Below (2 ^ 26) a × Below (2 ^ 26) s }
    ensures { result ≡ le 16 (value a + value s) }
{
    let [a, b, c, d] = unpack(ripple(add(a, s), 0).low);
    let mut r = [0u8; 16];
    words::store32(&mut r, 0, a);
    words::store32(&mut r, 4, b);
    words::store32(&mut r, 8, c);
    words::store32(&mut r, 12, d);
    r
}
