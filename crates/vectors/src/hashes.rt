// RFC 7693 appendix B, and of appendix E's self test of BLAKE2s the hashes of 32 bytes. The published result, the hash of all
// hashes in their order, takes the shorter ones from `others`.
use crate::hex::Hex;
use crate::{others, pieces};
use blake2s::State;

pub fn sections(rt: &impl Print) {
    let h = pieces::digest_of(blake2s::start(), b"abc", pieces::WHOLE);
    let _ = println!(rt; "RFC 7693 B: {}", Hex(&h));
}

// selftest_seq: the high byte of each number of a Fibonacci sequence; its seed is the length.
fn sequence(out: &mut [u8]) {
    let seed = (out.len() as u64) % 0x1_0000_0000;
    let mut a = ((0xdead_4bad * seed) % 0x1_0000_0000) as u32;
    let mut b: u32 = 1;
    for x in out.iter_mut() {
        let t = a.wrapping_add(b);
        a = b;
        b = t;
        *x = (t / 0x100_0000) as u8;
    }
}

fn keyed() -> State {
    let mut key = [0; 32];
    sequence(&mut key);
    blake2s::start_keyed(key)
}

// The two hashes of the sequence that fills m, shown and absorbed into the hash of hashes.
fn pair(rt: &impl Print, hashes: State, m: &mut [u8]) -> State {
    sequence(m);
    let n = m.len();
    let h = pieces::digest_of(blake2s::start(), m, pieces::WHOLE);
    let _ = println!(rt; "RFC 7693 E, {n} bytes: {}", Hex(&h));
    let k = pieces::digest_of(keyed(), m, pieces::WHOLE);
    let _ = println!(rt; "RFC 7693 E, {n} bytes, keyed: {}", Hex(&k));
    let s = blake2s::absorb(hashes, &h);
    blake2s::absorb(s, &k)
}

pub fn self_test(rt: &impl Print) {
    let mut hashes = blake2s::absorb(blake2s::start(), &others::OTHERS);
    let mut m = [0; 1024];
    for n in [0, 3, 64, 65, 255, 1024] {
        let next = pair(rt, hashes, &mut m[..n]);
        hashes = next;
    }
    let _ = println!(rt;
        "RFC 7693 E, the hash of the hashes: {}",
        Hex(&blake2s::finish(hashes))
    );
}

fn all_ways(rt: &impl Print, name: &str, keyed_name: &str, m: &[u8]) {
    for step in pieces::STEPS {
        let h = pieces::digest_of(blake2s::start(), m, step);
        pieces::show(rt, name, step, &h);
        let k = pieces::digest_of(keyed(), m, step);
        pieces::show(rt, keyed_name, step, &k);
    }
}

pub fn in_pieces(rt: &impl Print) {
    let mut a = [0; 255];
    sequence(&mut a);
    all_ways(
        rt,
        "RFC 7693 E, 255 bytes",
        "RFC 7693 E, 255 bytes, keyed",
        &a,
    );
    let mut b = [0; 1024];
    sequence(&mut b);
    all_ways(
        rt,
        "RFC 7693 E, 1024 bytes",
        "RFC 7693 E, 1024 bytes, keyed",
        &b,
    )
}
