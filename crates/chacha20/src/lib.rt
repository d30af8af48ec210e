// The stream cipher ChaCha20: RFC 8439, sections 2.1 to 2.4.
// It touches `words`, and of `base` and `streams` the definitions and laws alone.
#![tactic(auto)]

mod lanes;

ghost use Rattle.std.specs.Prelude.{◌≡◌, ◌*◌, ◌≤◌, length};
ghost use Rattle.chacha20.specs.Quads.{columns, diagonals};
ghost use Rattle.chacha20.specs.ChaCha20.{quarter, from_diagonals, double_round, twenty_rounds, added, start, block_from, block_of, keystream, encrypted};
ghost use Rattle.words.specs.Le.{words_of, serialised};

pub use words::Quad;

// 2.1: the quarter round on four numbers.
pub fn quarter_round(a: u32, b: u32, c: u32, d: u32) -> Quad
    ensures { result ≡ quarter a b c d }
{
    let a = a.wrapping_add(b);
    let d = words::rotate_left(d ^ a, 16);
    let c = c.wrapping_add(d);
    let b = words::rotate_left(b ^ c, 12);
    let a = a.wrapping_add(b);
    let d = words::rotate_left(d ^ a, 8);
    let c = c.wrapping_add(d);
    let b = words::rotate_left(b ^ c, 7);
    Quad { a, b, c, d }
}

// The words of four quarter rounds that don't touch one another.
#[derive(Clone, Copy)]
struct Quads {
    q0: Quad,
    q1: Quad,
    q2: Quad,
    q3: Quad,
}

// 2.3: quarter rounds on the four columns. Laid into its callers, as the next two: a call would stay in the loop over the lanes.
#[inline(always)]
fn columns(s: [u32; 16]) -> Quads
    ensures { result ≡ columns s }
{
    Quads {
        q0: quarter_round(s[0], s[4], s[8], s[12]),
        q1: quarter_round(s[1], s[5], s[9], s[13]),
        q2: quarter_round(s[2], s[6], s[10], s[14]),
        q3: quarter_round(s[3], s[7], s[11], s[15]),
    }
}

// 2.3: quarter rounds on the four diagonals of the state that has these columns.
#[inline(always)]
fn diagonals(q: Quads) -> Quads
    ensures { result ≡ diagonals q }
{
    Quads {
        q0: quarter_round(q.q0.a, q.q1.b, q.q2.c, q.q3.d),
        q1: quarter_round(q.q1.a, q.q2.b, q.q3.c, q.q0.d),
        q2: quarter_round(q.q2.a, q.q3.b, q.q0.c, q.q1.d),
        q3: quarter_round(q.q3.a, q.q0.b, q.q1.c, q.q2.d),
    }
}

// The state whose diagonals are the four.
#[inline(always)]
fn from_diagonals(p: Quads) -> [u32; 16]
    ensures { result ≡ from_diagonals p.q0 p.q1 p.q2 p.q3 }
{
    [
        p.q0.a, p.q1.a, p.q2.a, p.q3.a, p.q3.b, p.q0.b, p.q1.b, p.q2.b, p.q2.c, p.q3.c, p.q0.c, p
            .q1
            .c, p.q1.d, p.q2.d, p.q3.d, p.q0.d,
    ]
}

// 2.3: the four columns, then the four diagonals; word by word, so that no state is copied on the way.
fn double_round(s: [u32; 16]) -> [u32; 16]
    ensures { result ≡ double_round s }
{
    from_diagonals(diagonals(columns(s)))
}

fn twenty_rounds(s: [u32; 16]) -> [u32; 16]
    ensures { result ≡ twenty_rounds s }
{
    let mut w = s;
    for _ in 0..10u32 {
        // `w = double_round(w)` gets no generated proof.
        let next = double_round(w);
        w = next;
    }
    w
}

// The sum of the two states, each word stored lowest byte first.
fn summed(w: [u32; 16], s: [u32; 16]) -> [u8; 64]
    ensures { result ≡ serialised (added w s) }
{
    let mut r = [0u8; 64];
    for i in 0..16 {
        words::store32(&mut r, 4 * i, w[i].wrapping_add(s[i]));
    }
    r
}

// The first words of b in the place of s.
fn load(s: &mut [u32], b: &[u8])
    requires { 4 * length s.old ≤ length b.now }
    ensures { s.new ≡ words_of (length s.old) b.now }
{
    for (i, x) in s.iter_mut().enumerate() {
        *x = words::load32(b, 4 * i);
    }
}

fn start_state(key: [u8; 32], nonce: [u8; 12], counter: u32) -> [u32; 16]
    ensures { result ≡ start key nonce counter }
{
    let mut s = [
        0x61707865, 0x3320646e, 0x79622d32, 0x6b206574, 0, 0, 0, 0, 0, 0, 0, 0, counter, 0, 0, 0,
    ];
    load(&mut s[4..12], &key);
    load(&mut s[13..], &nonce);
    s
}

fn block_from(s: [u32; 16]) -> [u8; 64]
    ensures { result ≡ block_from s }
{
    summed(twenty_rounds(s), s)
}

// 2.3: the block function.
// Key, nonce and counter one by one, as the RFC's functions and the definitions take them.
pub fn block(key: [u8; 32], nonce: [u8; 12], counter: u32) -> [u8; 64]
    ensures { result ≡ block_of key nonce counter }
{
    block_from(start_state(key, nonce, counter))
}

// Eight blocks one after the other, from block `counter` on, in the place of r: lent, since 512 bytes given back are copied.
pub fn eight(r: &mut [u8], key: [u8; 32], nonce: [u8; 12], counter: u32)
    requires { length r.old ≡ 512 }
    ensures { r.new ≡ keystream key nonce counter 8 }
{
    lanes::eight_blocks(r, start_state(key, nonce, counter));
}

// 2.4, one block at a time: a text of a block or two would wait for eight.
fn lay_rest(d: &mut [u8], key: [u8; 32], nonce: [u8; 12], counter: u32)
    ensures { d.new ≡ encrypted key nonce counter d.old }
{
    let mut s = start_state(key, nonce, counter);
    for at in (0..d.len()).step_by(64) {
        let end = d.len().min(at + 64);
        words::xor(&mut d[at..end], &block_from(s));
        s[12] = s[12].wrapping_add(1);
    }
}

// 2.4: the keystream from block `counter` on laid over `d`; eight blocks at a time while they last.
pub fn lay(d: &mut [u8], key: [u8; 32], nonce: [u8; 12], counter: u32)
    ensures { d.new ≡ encrypted key nonce counter d.old }
{
    let mut s = start_state(key, nonce, counter);
    let mut k = [0u8; 512];
    let whole = d.len() / 512 * 512;
    for at in (0..whole).step_by(512) {
        lanes::eight_blocks(&mut k, s);
        words::xor(&mut d[at..at + 512], &k);
        s[12] = s[12].wrapping_add(8);
    }
    lay_rest(&mut d[whole..], key, nonce, s[12]);
}
