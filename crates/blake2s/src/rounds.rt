// RFC 7693 3.1 and 3.2: the mixing function G and the compression function F.
ghost use Rattle.std.specs.Prelude.{◌≡◌, ◌+◌, ◌<◌};
ghost use Rattle.base.specs.Lists.{tab};
ghost use Rattle.words.specs.Le.{words_of};
ghost use Rattle.blake2s.specs.Compress.{mix, mix_at, at, round, rounds, vector, joined_at, Order};
ghost use Rattle.blake2s.specs.Compress as F;

use words::Quad;

pub const IV: [u32; 8] = [
    0x6a09_e667,
    0xbb67_ae85,
    0x3c6e_f372,
    0xa54f_f53a,
    0x510e_527f,
    0x9b05_688c,
    0x1f83_d9ab,
    0x5be0_cd19,
];

const SIGMA: [[u8; 16]; 10] = [
    [0, 1, 2, 3, 4, 5, 6, 7, 8, 9, 10, 11, 12, 13, 14, 15],
    [14, 10, 4, 8, 9, 15, 13, 6, 1, 12, 0, 2, 11, 7, 5, 3],
    [11, 8, 12, 0, 5, 2, 15, 13, 10, 14, 3, 6, 7, 1, 9, 4],
    [7, 9, 3, 1, 13, 12, 11, 14, 2, 6, 5, 10, 4, 0, 15, 8],
    [9, 0, 5, 7, 2, 4, 10, 15, 14, 1, 11, 12, 6, 8, 3, 13],
    [2, 12, 6, 10, 0, 11, 8, 3, 4, 13, 7, 5, 15, 14, 1, 9],
    [12, 5, 1, 15, 14, 13, 4, 10, 0, 7, 6, 3, 9, 2, 8, 11],
    [13, 11, 7, 14, 12, 1, 3, 9, 5, 0, 15, 4, 8, 6, 2, 10],
    [6, 15, 14, 9, 11, 3, 0, 8, 12, 2, 13, 7, 1, 4, 10, 5],
    [10, 2, 8, 4, 7, 6, 1, 5, 15, 11, 9, 14, 3, 12, 13, 0],
];

fn mix_quad(q: Quad, x: u32, y: u32) -> Quad
    ensures { result ≡ mix q x y }
{
    let a1 = q.a.wrapping_add(q.b).wrapping_add(x);
    let d1 = words::rotate_right(q.d ^ a1, 16);
    let c1 = q.c.wrapping_add(d1);
    let b1 = words::rotate_right(q.b ^ c1, 12);
    let a = a1.wrapping_add(b1).wrapping_add(y);
    let d = words::rotate_right(d1 ^ a, 8);
    let c = c1.wrapping_add(d);
    let b = words::rotate_right(b1 ^ c, 7);
    Quad { a, b, c, d }
}

fn mix_at(mut v: [u32; 16], a: usize, b: usize, c: usize, d: usize, x: u32, y: u32) -> [u32; 16]
    requires { (a < 16) × (b < 16) × (c < 16) × (d < 16) }
    ensures { result ≡ mix_at v a b c d x y }
{
    let q = Quad {
        a: v[a],
        b: v[b],
        c: v[c],
        d: v[d],
    };
    let q = mix_quad(q, x, y);
    v[a] = q.a;
    v[b] = q.b;
    v[c] = q.c;
    v[d] = q.d;
    v
}

fn word_of(m: &[u32; 16], s: &[u8; 16], i: usize) -> u32
    requires { (i < 16) × Order s.now }
    ensures { result ≡ at m.now s.now i }
{
    m[usize::from(s[i])]
}

fn one_round(v: [u32; 16], m: &[u32; 16], s: &[u8; 16]) -> [u32; 16]
    requires { Order s.now }
    ensures { result ≡ round m.now s.now v }
{
    let v = mix_at(v, 0, 4, 8, 12, word_of(m, s, 0), word_of(m, s, 1));
    let v = mix_at(v, 1, 5, 9, 13, word_of(m, s, 2), word_of(m, s, 3));
    let v = mix_at(v, 2, 6, 10, 14, word_of(m, s, 4), word_of(m, s, 5));
    let v = mix_at(v, 3, 7, 11, 15, word_of(m, s, 6), word_of(m, s, 7));
    let v = mix_at(v, 0, 5, 10, 15, word_of(m, s, 8), word_of(m, s, 9));
    let v = mix_at(v, 1, 6, 11, 12, word_of(m, s, 10), word_of(m, s, 11));
    let v = mix_at(v, 2, 7, 8, 13, word_of(m, s, 12), word_of(m, s, 13));
    mix_at(v, 3, 4, 9, 14, word_of(m, s, 14), word_of(m, s, 15))
}

fn ten_rounds(mut v: [u32; 16], m: &[u32; 16]) -> [u32; 16]
    ensures { result ≡ rounds 10 m.now v }
{
    // The table as a copy: read where it lies, it costs the hash a twentieth (bench/).
    for s in SIGMA {
        let next = one_round(v, m, &s);
        v = next;
    }
    v
}

fn start_vector(h: [u32; 8], t: u64, last: bool) -> [u32; 16]
    ensures { result ≡ vector h t last }
{
    // Word by word: two copies of slices cost the hash a twenty-fifth (bench/).
    let k = IV;
    let mut v = [
        h[0], h[1], h[2], h[3], h[4], h[5], h[6], h[7], k[0], k[1], k[2], k[3], k[4], k[5], k[6],
        k[7],
    ];
    v[12] ^= (t % 0x1_0000_0000) as u32;
    v[13] ^= (t / 0x1_0000_0000) as u32;
    if last {
        v[14] ^= 0xffff_ffff;
    }
    v
}

fn join(mut h: [u32; 8], v: [u32; 16]) -> [u32; 8]
    ensures { result ≡ tab 8 (joined_at h v) }
{
    for (i, x) in h.iter_mut().enumerate() {
        *x ^= v[i] ^ v[i + 8];
    }
    h
}

fn words_of(b: [u8; 64]) -> [u32; 16]
    ensures { result ≡ words_of 16 b }
{
    let mut r = [0; 16];
    for (i, x) in r.iter_mut().enumerate() {
        *x = words::load32(&b, 4 * i);
    }
    r
}

pub fn compress(h: [u32; 8], b: [u8; 64], t: u64, last: bool) -> [u32; 8]
    ensures { result ≡ F.compress h (words_of 16 b) t last }
{
    let m = words_of(b);
    let v = ten_rounds(start_vector(h, t, last), &m);
    join(h, v)
}
