// Four turns at a time: lane l takes block l and every fourth block after it, and the lanes are added in the end.
// A limb lies in 64 bits, so that a product of limbs is one instruction for a pair of lanes. What the loop over the lanes
// calls is called from there alone or is small, so that all of it is laid into the loop and compiled for lanes.
ghost use Rattle.std.specs.Prelude.{◌≡◌, ◌+◌, ◌*◌, ◌%◌, ◌^◌, ◌<◌, ◌≤◌, length};
ghost use Rattle.base.specs.Lists.{part};
ghost use Rattle.words.specs.Le.{num};
ghost use Rattle.limbs.specs.Limbs.{value, p};
ghost use Rattle.limbs.specs.Bounds.{Below, Stands, Ran, steps_by};
ghost use Rattle.limbs.specs.Lanes.{lane_of, weighed, Narrow, LanePut, Level, LanesFit, Multiplies, Blocks, Turned};

use crate::{Limbs, Multiplier};

#[derive(Clone, Copy)]
struct Block {
    lo: u64,
    hi: u64,
}

// Limb k of the number in lane l lies at 4 k + l.
#[derive(Clone, Copy)]
struct Lanes {
    limbs: [u64; 20],
    ghost narrow: { Narrow limbs },
}

impl Lanes {
    // The same number in each lane: as a plain number a factor loses the product by one instruction.
    fn level(x: Limbs) -> Lanes
        ensures { Level x result.limbs }
    {
        let mut h = Lanes { limbs: [0; 20] };
        for l in 0..4 {
            h.put(l, x);
        }
        h
    }

    // The number in lane l.
    fn get(&self, l: usize) -> Limbs
        requires { l < 4 }
        ensures { result ≡ lane_of self.now.limbs l }
    {
        Limbs {
            l0: self.limbs[l] as u32,
            l1: self.limbs[4 + l] as u32,
            l2: self.limbs[8 + l] as u32,
            l3: self.limbs[12 + l] as u32,
            l4: self.limbs[16 + l] as u32,
        }
    }

    // x into lane l.
    fn put(&mut self, l: usize, x: Limbs)
        requires { l < 4 }
        ensures { LanePut l x self.old.limbs self.new.limbs }
    {
        self.limbs[l] = u64::from(x.l0);
        self.limbs[4 + l] = u64::from(x.l1);
        self.limbs[8 + l] = u64::from(x.l2);
        self.limbs[12 + l] = u64::from(x.l3);
        self.limbs[16 + l] = u64::from(x.l4);
    }

    // Each lane times that of q, and the four blocks at `at` added.
    fn turn(&mut self, q: &Lanes, v: &Lanes, m: &[u8], at: usize)
        requires { LanesFit self.old.limbs × Multiplies q.now.limbs v.now.limbs × (at + 64 ≤ length m.now) }
        ensures { Turned q.now.limbs m.now at self.old.limbs self.new.limbs }
    {
        for l in 0..4 {
            let by = Multiplier {
                r: q.get(l),
                v: v.get(l),
            };
            let n = halves(m, at + 16 * l);
            let x = mul_add(self.get(l), by, n);
            self.put(l, x);
        }
    }

    // The lanes added, each times its power of r.
    fn fold(&self, by: Multiplier) -> Limbs
        requires { LanesFit self.now.limbs }
        ensures { Ran (weighed (value by.r) self.now.limbs % p) result }
    {
        let zeros = [0u8; 16];
        let mut x = Limbs::default();
        for l in 0..4 {
            x = crate::run(crate::add(x, self.get(l)), by, &zeros, 1, false);
        }
        x
    }
}

fn half(m: &[u8], at: usize) -> u64
    requires { at + 8 ≤ length m.now }
    ensures { result ≡ num (part at 8 m.now) }
{
    let a = words::load32(m, at);
    let b = words::load32(m, at + 4);
    u64::from(a) + 0x1_0000_0000 * u64::from(b)
}

// The halves of a block by themselves, so that each is compiled to one load.
fn halves(m: &[u8], at: usize) -> Block
    requires { at + 16 ≤ length m.now }
    ensures { num (part at 16 m.now) ≡ result.lo + 2 ^ 64 * result.hi }
{
    Block {
        lo: half(m, at),
        hi: half(m, at + 8),
    }
}

// h times r with a block and its 1 at bit 128 added: the block's parts join the sums of products before the carry.
fn mul_add(h: Limbs, by: Multiplier, n: Block) -> Limbs
    requires { Below (2 ^ 29) h }
    ensures { Stands (value h * value by.r + (n.lo + 2 ^ 64 * n.hi + 2 ^ 104 * 2 ^ 24)) result }
{
    let Multiplier { r, v } = by;
    let d0 = crate::dot(h, r.l0, v.l4, v.l3, v.l2, v.l1) + n.lo % 0x400_0000;
    let d1 = crate::dot(h, r.l1, r.l0, v.l4, v.l3, v.l2) + n.lo / 0x400_0000;
    let d2 = crate::dot(h, r.l2, r.l1, r.l0, v.l4, v.l3) + n.hi % 0x4000 * 0x1000;
    let d3 = crate::dot(h, r.l3, r.l2, r.l1, r.l0, v.l4) + n.hi / 0x4000;
    let d4 = crate::dot(h, r.l4, r.l3, r.l2, r.l1, r.l0) + 0x100_0000;
    crate::carry(d0, d1, d2, d3, d4)
}

// The first four blocks, and a in lane 0.
fn first(a: Limbs, m: &[u8]) -> Lanes
    requires { Below (2 ^ 26) a × (64 ≤ length m.now) }
    ensures { Blocks a m.now result.limbs }
{
    let mut h = Lanes { limbs: [0; 20] };
    for l in 0..4 {
        h.put(l, crate::number(m, 16 * l, true));
    }
    let x = crate::add(a, h.get(0));
    h.put(0, x);
    h
}

// 4 g turns with the first blocks of m. The fourth power of r is what three turns with zeros make of r.
pub(crate) fn run_four(a: Limbs, by: Multiplier, m: &[u8], g: usize) -> Limbs
    requires { Below (2 ^ 26) a × (0 < g) × (64 * g ≤ length m.now) }
    ensures { Ran (steps_by (2 ^ 24) (4 * g) (value by.r) (value a % p) m.now) result }
{
    let zeros = [0u8; 48];
    let fourth = Multiplier::new(crate::run(by.r, by, &zeros, 3, false));
    let q = Lanes::level(fourth.r);
    let v = Lanes::level(fourth.v);
    let mut h = first(a, m);
    for i in 1..g {
        h.turn(&q, &v, m, 64 * i);
    }
    h.fold(by)
}
