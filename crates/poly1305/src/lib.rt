// Poly1305 (RFC 8439 2.5): the tag of a message that is given in pieces of any length.
// It touches `base`, `words` and `limbs`.
#![tactic(auto)]

ghost use Rattle.std.specs.Prelude.{◌≡◌, ◌+◌, ◌*◌, ◌<◌, ◌≤◌, length, take};
ghost use Rattle.base.specs.Lists.{part};
ghost use Rattle.words.specs.Le.{num};
ghost use Rattle.limbs.specs.Limbs.{limbs_of};
ghost use Rattle.poly1305.specs.Poly1305.{clamp};
ghost use Rattle.poly1305.specs.State.{started, absorbed, finished, GoodState};

use limbs::Limbs;

// The key's r and s, the accumulator, and a block that isn't full yet: no heap, so a buffer of fixed size and how much of it is taken.
#[derive(Clone, Copy)]
pub struct State {
    pub r: Limbs,
    pub acc: Limbs,
    pub s: Limbs,
    pub buf: [u8; 16],
    pub fill: usize,
}

// A state that start and absorb give.
#[derive(Clone, Copy)]
pub struct Authenticator {
    pub state: State,
    pub ghost good: { GoodState state },
}

fn clamped(key: &[u8]) -> Limbs
    requires { 16 ≤ length key.now }
    ensures { result ≡ limbs_of (clamp (num (part 0 16 key.now))) }
{
    let a = words::load32(key, 0);
    let b = words::load32(key, 4);
    let c = words::load32(key, 8);
    let d = words::load32(key, 12);
    limbs::pack(
        a & 0x0fff_ffff,
        b & 0x0fff_fffc,
        c & 0x0fff_fffc,
        d & 0x0fff_fffc,
    )
}

fn number(b: &[u8], at: usize) -> Limbs
    requires { at + 16 ≤ length b.now }
    ensures { result ≡ limbs_of (num (part at 16 b.now)) }
{
    let w0 = words::load32(b, at);
    let w1 = words::load32(b, at + 4);
    let w2 = words::load32(b, at + 8);
    let w3 = words::load32(b, at + 12);
    limbs::pack(w0, w1, w2, w3)
}

pub fn start(key: [u8; 32]) -> Authenticator
    ensures { result.state ≡ started key }
{
    Authenticator {
        state: State {
            r: clamped(&key),
            acc: limbs::pack(0, 0, 0, 0),
            s: number(&key, 16),
            buf: [0; 16],
            fill: 0,
        },
    }
}

// The bytes of m behind those in the buffer, which they don't fill.
fn lay(a: Authenticator, m: &[u8]) -> Authenticator
    requires { a.state.fill + length m.now < 16 }
    ensures { result.state ≡ absorbed a.state m.now }
{
    let state = a.state;
    let mut buf = state.buf;
    words::copy(&mut buf, state.fill, m);
    Authenticator {
        state: State {
            buf,
            fill: state.fill + m.len(),
            ..state
        },
    }
}

// The bytes of m behind those in the buffer, which they fill.
fn top_up(a: Authenticator, m: &[u8]) -> Authenticator
    requires { a.state.fill + length m.now ≡ 16 }
    ensures { (result.state ≡ absorbed a.state m.now) × (result.state.fill ≡ 0) }
{
    let state = a.state;
    let mut buf = state.buf;
    words::copy(&mut buf, state.fill, m);
    let acc = limbs::blocks(state.acc, state.r, &buf, 1);
    Authenticator {
        state: State {
            acc,
            buf: [0; 16],
            fill: 0,
            ..state
        },
    }
}

// The first n blocks of m, from an empty buffer on.
fn push_blocks(a: Authenticator, m: &[u8], n: usize) -> Authenticator
    requires { (a.state.fill ≡ 0) × (16 * n ≤ length m.now) }
    ensures { (result.state ≡ absorbed a.state (take (16 * n) m.now)) × (result.state.fill ≡ 0) }
{
    if n == 0 {
        return a;
    }
    let state = a.state;
    let acc = limbs::blocks(state.acc, state.r, m, n);
    Authenticator {
        state: State {
            acc,
            buf: [0; 16],
            fill: 0,
            ..state
        },
    }
}

// All of m, from an empty buffer on.
fn aligned(a: Authenticator, m: &[u8]) -> Authenticator
    requires { a.state.fill ≡ 0 }
    ensures { result.state ≡ absorbed a.state m.now }
{
    let n = m.len() / 16;
    lay(push_blocks(a, m, n), &m[16 * n..])
}

pub fn absorb(a: Authenticator, m: &[u8]) -> Authenticator
    ensures { result.state ≡ absorbed a.state m.now }
{
    let fill = a.state.fill;
    if fill == 0 {
        return aligned(a, m);
    }
    let room = 16 - fill;
    if m.len() < room {
        return lay(a, m);
    }
    aligned(top_up(a, &m[..room]), &m[room..])
}

pub fn finish(a: Authenticator) -> [u8; 16]
    ensures { result ≡ finished a.state }
{
    let State {
        r,
        acc,
        s,
        buf,
        fill,
    } = a.state;
    if fill == 0 {
        return limbs::total(acc, s);
    }
    let mut b = [0; 16];
    words::copy(&mut b, 0, &buf[..fill]);
    b[fill] = 1;
    limbs::total(limbs::last(acc, r, &b), s)
}
