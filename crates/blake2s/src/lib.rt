// BLAKE2s of RFC 7693 with 32 bytes out, over a message given in pieces, without a key or with one of 32 bytes.
// It touches `base` and `words`.
#![tactic(auto)]

mod rounds;

ghost use Rattle.std.specs.Prelude.{◌≡◌, ◌≤◌, length};
ghost use Rattle.words.specs.Le.{serialised};
ghost use Rattle.blake2s.specs.Hash.{initial, padded};
ghost use Rattle.blake2s.specs.Stream.{started, started_keyed, absorbed, finished};

// A hash under way: the chain value, the block that waits, how many of its bytes count (64 or more: all), and the
// number of bytes compressed so far. No ghost field: `absorb` and `finish` answer on any State, its fields being public;
// no heap, so a buffer of fixed size and how much of it is taken.
#[derive(Clone, Copy)]
pub struct State {
    pub chain: [u32; 8],
    pub buffer: [u8; 64],
    pub fill: usize,
    pub count: u64,
}

// RFC 7693 3.3 takes nn = 32 and kk, the key's length, into the first word.
fn first_chain(kk: u32) -> [u32; 8]
    requires { kk ≤ 32 }
    ensures { result ≡ initial kk }
{
    let mut h = rounds::IV;
    h[0] ^= 0x0101_0000;
    h[0] ^= kk * 256;
    h[0] ^= 32;
    h
}

pub fn start() -> State
    ensures { result ≡ started }
{
    State {
        chain: first_chain(0),
        buffer: [0; 64],
        fill: 0,
        count: 0,
    }
}

// A block of the given bytes and zeros behind them.
fn pad(from: &[u8]) -> [u8; 64]
    requires { length from.now ≤ 64 }
    ensures { result ≡ padded from.now }
{
    let mut b = [0; 64];
    words::copy(&mut b, 0, from);
    b
}

pub fn start_keyed(key: [u8; 32]) -> State
    ensures { result ≡ started_keyed key }
{
    State {
        chain: first_chain(32),
        buffer: pad(&key),
        fill: 64,
        count: 0,
    }
}

pub fn absorb(s: State, m: &[u8]) -> State
    ensures { result ≡ absorbed s m.now }
{
    let State {
        mut chain,
        mut buffer,
        mut fill,
        mut count,
    } = s;
    let (first, rest) = m.split_at(m.len().min(64usize.saturating_sub(fill)));
    if !first.is_empty() {
        words::copy(&mut buffer, fill, first);
        fill += first.len();
    }
    // A full block is compressed only when more bytes come, since the last one is flagged.
    for block in rest.chunks(64) {
        count = count.wrapping_add(64);
        let next = rounds::compress(chain, buffer, count, false);
        chain = next;
        words::copy(&mut buffer, 0, block);
        fill = block.len();
    }
    State {
        chain,
        buffer,
        fill,
        count,
    }
}

// RFC 7693 3.3: the words of the state, each with its lowest byte first.
fn bytes_of(h: [u32; 8]) -> [u8; 32]
    ensures { result ≡ serialised h }
{
    let mut r = [0; 32];
    for (i, x) in h.iter().enumerate() {
        words::store32(&mut r, 4 * i, *x);
    }
    r
}

pub fn finish(s: State) -> [u8; 32]
    ensures { result ≡ finished s }
{
    let fill = s.fill.min(64);
    let t = s.count.wrapping_add(fill as u64);
    let block = pad(&s.buffer[..fill]);
    bytes_of(rounds::compress(s.chain, block, t, true))
}
