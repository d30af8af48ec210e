// Eight states that lie word by word: word k of the state in lane j is at 8 * k + j, so that one step of four states is one
// instruction. Each function of the double round has one caller or is laid into each: the compiler then makes one loop of them
// and vectors of that (`bench/README.md`).
ghost use Rattle.std.specs.Prelude.{◌≡◌, ◌+◌, ◌*◌, ◌<◌, length};
ghost use Rattle.std.proofs.lemmas.List.Edits.{sets};
ghost use Rattle.words.specs.Le.{serialised};
ghost use Rattle.chacha20.specs.ChaCha20.{double_round, twenty_rounds};
ghost use Rattle.chacha20.specs.Lanes.{lane, LanesPut, Each, repeated, counters, Spread, wide_added, lane_blocks, blocks_from};

// Two states.
#[derive(Clone, Copy)]
struct Two {
    s: [u32; 16],
    t: [u32; 16],
}

// The states in lanes l and 4 + l.
fn pair(w: &[u32; 128], l: usize) -> Two
    requires { l < 4 }
    ensures { (result.s ≡ lane w.now l) × (result.t ≡ lane w.now (4 + l)) }
{
    let mut s = [0u32; 16];
    let mut t = [0u32; 16];
    for k in 0..16 {
        s[k] = w[8 * k + l];
        t[k] = w[8 * k + (4 + l)];
    }
    Two { s, t }
}

// The two states laid into lanes l and 4 + l.
fn put(w: &mut [u32; 128], l: usize, x: Two)
    requires { (l < 4) × (length w.old ≡ 128) }
    ensures { LanesPut l x.s x.t w.old w.new }
{
    for k in 0..16 {
        w[8 * k + l] = x.s[k];
        w[8 * k + (4 + l)] = x.t[k];
    }
}

// 2.3 on two states: the columns of both, then the diagonals of both, so that neither waits for the other. Two calls of
// `double_round`, one after the other, are up to a tenth slower.
fn double_two(x: Two) -> Two
    ensures { (result.s ≡ double_round x.s) × (result.t ≡ double_round x.t) }
{
    let q = crate::columns(x.s);
    let u = crate::columns(x.t);
    let p = crate::diagonals(q);
    let v = crate::diagonals(u);
    Two {
        s: crate::from_diagonals(p),
        t: crate::from_diagonals(v),
    }
}

fn wide_round(w: &mut [u32; 128])
    requires { length w.old ≡ 128 }
    ensures { Each double_round w.old w.new }
{
    for l in 0..4 {
        let x = double_two(pair(w, l));
        put(w, l, x);
    }
}

fn wide_rounds(x: [u32; 128]) -> [u32; 128]
    ensures { Each twenty_rounds x result }
{
    let mut w = x;
    for _ in 0..10u32 {
        wide_round(&mut w);
    }
    w
}

// The state in every lane.
fn repeat(s: [u32; 16]) -> [u32; 128]
    ensures { result ≡ repeated s }
{
    let mut w = [0u32; 128];
    for (i, x) in w.iter_mut().enumerate() {
        *x = s[i / 8];
    }
    w
}

// The block counters of the eight lanes, from c on.
fn count(x: [u32; 128], c: u32) -> [u32; 128]
    ensures { result ≡ sets x 96 (counters c) }
{
    let mut w = x;
    for j in 0..8 {
        w[96 + j as usize] = c.wrapping_add(j);
    }
    w
}

// The states of eight blocks.
fn spread(s: [u32; 16]) -> [u32; 128]
    ensures { Spread s result }
{
    count(repeat(s), s[12])
}

// The sums of all words, before any of them is stored: so they are vectors too, and the stores are exchanges of whole vectors.
fn wide_added(w: [u32; 128], s: [u32; 128]) -> [u32; 128]
    ensures { result ≡ wide_added w s }
{
    let mut sums = [0u32; 128];
    for (i, x) in sums.iter_mut().enumerate() {
        *x = w[i].wrapping_add(s[i]);
    }
    sums
}

// The block of lane l, where it comes among the eight.
fn store_lane(r: &mut [u8], x: &[u32; 128], l: usize)
    requires { (l < 8) × (length r.old ≡ 512) }
    ensures { r.new ≡ sets r.old (64 * l) (serialised (lane x.now l)) }
{
    for k in 0..16 {
        words::store32(r, 64 * l + 4 * k, x[8 * k + l]);
    }
}

fn store_lanes(r: &mut [u8], x: [u32; 128])
    requires { length r.old ≡ 512 }
    ensures { r.new ≡ lane_blocks x 8 }
{
    for l in 0..8 {
        store_lane(r, &x, l);
    }
}

// Eight blocks from the state's counter on, in the place of r.
pub fn eight_blocks(r: &mut [u8], s: [u32; 16])
    requires { length r.old ≡ 512 }
    ensures { r.new ≡ blocks_from s 8 }
{
    let w = spread(s);
    let x = wide_rounds(w);
    let y = wide_added(x, w);
    store_lanes(r, y);
}
