// RFC 8439 2.5, 2.6, 2.8, A.3 and A.4.
ghost use Rattle.std.specs.Prelude.{◌<◌};

use crate::hex::Hex;
use crate::{inputs, pieces};

// The tag of m, absorbed in pieces of `step` bytes.
fn tag_by(key: [u8; 32], m: &[u8], step: usize) -> [u8; 16]
    requires { 0 < step }
{
    pieces::digest_of(poly1305::start(key), m, step)
}

fn tag(rt: &impl Print, name: &str, key: [u8; 32], m: &[u8]) {
    let _ = println!(rt; "{name}: {}", Hex(&tag_by(key, m, pieces::WHOLE)));
}

fn all_ways(rt: &impl Print, name: &str, key: [u8; 32], m: &[u8]) {
    tag(rt, name, key, m);
    for step in pieces::STEPS {
        pieces::show(rt, name, step, &tag_by(key, m, step));
    }
}

pub fn sections(rt: &impl Print) {
    let key = *b"\x85\xd6\xbe\x78\x57\x55\x6d\x33\x7f\x44\x52\xfe\x42\xd5\x06\xa8\
        \x01\x03\x80\x8a\xfb\x0d\xb2\xfd\x4a\xbf\xf6\xaf\x41\x49\xf5\x1b";
    all_ways(
        rt,
        "RFC 8439 2.5.2",
        key,
        b"Cryptographic Forum Research Group",
    );
    let other = *b"\x80\x81\x82\x83\x84\x85\x86\x87\x88\x89\x8a\x8b\x8c\x8d\x8e\x8f\
        \x90\x91\x92\x93\x94\x95\x96\x97\x98\x99\x9a\x9b\x9c\x9d\x9e\x9f";
    let nonce = *b"\x00\x00\x00\x00\x00\x01\x02\x03\x04\x05\x06\x07";
    one_time_key(rt, "RFC 8439 2.6.2", other, nonce);
    laid_out(rt, other)
}

// 2.8: the tag of associated data and ciphertext, under the front of block 0.
fn laid_out(rt: &impl Print, key: [u8; 32]) {
    let nonce = *b"\x07\x00\x00\x00\x40\x41\x42\x43\x44\x45\x46\x47";
    let ad = *b"\x50\x51\x52\x53\xc0\xc1\xc2\xc3\xc4\xc5\xc6\xc7";
    let mut text = inputs::SUNSCREEN;
    chacha20::lay(&mut text, key, nonce, 1);
    let once = one_time(key, nonce);
    let _ = println!(rt; "RFC 8439 2.8.2, one-time key: {}", Hex(&once));
    let _ = println!(rt; "RFC 8439 2.8.2, ciphertext: {}", Hex(&text));
    let t = keys::tag_laid_out(once, &ad, &text);
    let _ = println!(rt; "RFC 8439 2.8.2: {}", Hex(&t));
}

// The key of r and s.
fn key_of(r: [u8; 16], s: [u8; 16]) -> [u8; 32] {
    let mut k = [0; 32];
    k[..16].copy_from_slice(&r);
    k[16..].copy_from_slice(&s);
    k
}

// The number x as sixteen bytes.
fn small(x: u8) -> [u8; 16] {
    let mut r = [0; 16];
    r[0] = x;
    r
}

pub fn texts(rt: &impl Print) {
    let zeros = [0; 64];
    tag(rt, "RFC 8439 A.3 #1", inputs::ZEROS, &zeros);
    let half = *b"\x36\xe5\xf6\xb5\xc5\xe0\x60\x70\xf0\xef\xca\x96\x22\x7a\x86\x3e";
    let text = inputs::CONTRIBUTION;
    tag(rt, "RFC 8439 A.3 #2", key_of(small(0), half), &text);
    all_ways(rt, "RFC 8439 A.3 #3", key_of(half, small(0)), &text);
    let poem = inputs::JABBERWOCKY;
    all_ways(rt, "RFC 8439 A.3 #4", inputs::MIXED, &poem)
}

// Sums and products at the edges of 2^130 - 5.
pub fn edges(rt: &impl Print) {
    let m5 = *b"\xff\xff\xff\xff\xff\xff\xff\xff\xff\xff\xff\xff\xff\xff\xff\xff";
    tag(rt, "RFC 8439 A.3 #5", key_of(small(2), small(0)), &m5);
    let m6 = *b"\x02\x00\x00\x00\x00\x00\x00\x00\x00\x00\x00\x00\x00\x00\x00\x00";
    tag(rt, "RFC 8439 A.3 #6", key_of(small(2), [0xff; 16]), &m6);
    let m7 = *b"\xff\xff\xff\xff\xff\xff\xff\xff\xff\xff\xff\xff\xff\xff\xff\xff\
        \xf0\xff\xff\xff\xff\xff\xff\xff\xff\xff\xff\xff\xff\xff\xff\xff\
        \x11\x00\x00\x00\x00\x00\x00\x00\x00\x00\x00\x00\x00\x00\x00\x00";
    tag(rt, "RFC 8439 A.3 #7", key_of(small(1), small(0)), &m7);
    let m8 = *b"\xff\xff\xff\xff\xff\xff\xff\xff\xff\xff\xff\xff\xff\xff\xff\xff\
        \xfb\xfe\xfe\xfe\xfe\xfe\xfe\xfe\xfe\xfe\xfe\xfe\xfe\xfe\xfe\xfe\
        \x01\x01\x01\x01\x01\x01\x01\x01\x01\x01\x01\x01\x01\x01\x01\x01";
    tag(rt, "RFC 8439 A.3 #8", key_of(small(1), small(0)), &m8);
    let m9 = *b"\xfd\xff\xff\xff\xff\xff\xff\xff\xff\xff\xff\xff\xff\xff\xff\xff";
    tag(rt, "RFC 8439 A.3 #9", key_of(small(2), small(0)), &m9);
    let r = *b"\x01\x00\x00\x00\x00\x00\x00\x00\x04\x00\x00\x00\x00\x00\x00\x00";
    let m10 = *b"\xe3\x35\x94\xd7\x50\x5e\x43\xb9\x00\x00\x00\x00\x00\x00\x00\x00\
        \x33\x94\xd7\x50\x5e\x43\x79\xcd\x01\x00\x00\x00\x00\x00\x00\x00\
        \x00\x00\x00\x00\x00\x00\x00\x00\x00\x00\x00\x00\x00\x00\x00\x00\
        \x01\x00\x00\x00\x00\x00\x00\x00\x00\x00\x00\x00\x00\x00\x00\x00";
    tag(rt, "RFC 8439 A.3 #10", key_of(r, small(0)), &m10);
    tag(rt, "RFC 8439 A.3 #11", key_of(r, small(0)), &m10[0..48])
}

// 2.6: the first 32 bytes of block 0.
fn one_time(key: [u8; 32], nonce: [u8; 12]) -> [u8; 32] {
    words::taken(&chacha20::block(key, nonce, 0), 0)
}

fn one_time_key(rt: &impl Print, name: &str, key: [u8; 32], nonce: [u8; 12]) {
    let _ = println!(rt; "{name}: {}", Hex(&one_time(key, nonce)));
}

pub fn keys(rt: &impl Print) {
    one_time_key(rt, "RFC 8439 A.4 #1", inputs::ZEROS, inputs::NO_NONCE);
    one_time_key(
        rt,
        "RFC 8439 A.4 #2",
        inputs::ENDS_IN_ONE,
        inputs::NONCE_TWO,
    );
    one_time_key(rt, "RFC 8439 A.4 #3", inputs::MIXED, inputs::NONCE_TWO)
}
