// RFC 8439 2.1 to 2.4, A.1 and A.2.
use crate::hex::Hex;
use crate::inputs;

fn quarter(rt: &impl Print, name: &str, a: u32, b: u32, c: u32, d: u32) {
    let q = chacha20::quarter_round(a, b, c, d);
    let (a, b, c, d) = (q.a, q.b, q.c, q.d);
    let _ = println!(rt; "{name}: {a:08x} {b:08x} {c:08x} {d:08x}");
}

fn block(rt: &impl Print, name: &str, key: [u8; 32], nonce: [u8; 12], counter: u32) {
    let b = chacha20::block(key, nonce, counter);
    let _ = println!(rt; "{name}: {}", Hex(&b));
}

pub fn sections(rt: &impl Print) {
    quarter(
        rt,
        "RFC 8439 2.1.1",
        0x1111_1111,
        0x0102_0304,
        0x9b8d_6f43,
        0x0123_4567,
    );
    // QUARTERROUND(2, 7, 8, 13): the four words that it changes
    quarter(
        rt,
        "RFC 8439 2.2.1",
        0x5164_61b1,
        0x2a5f_714c,
        0x5337_2767,
        0x3d63_1689,
    );
    let nonce = *b"\x00\x00\x00\x09\x00\x00\x00\x4a\x00\x00\x00\x00";
    block(rt, "RFC 8439 2.3.2", inputs::COUNTED, nonce, 1);
    let mut d = inputs::SUNSCREEN;
    let other = *b"\x00\x00\x00\x00\x00\x00\x00\x4a\x00\x00\x00\x00";
    chacha20::lay(&mut d, inputs::COUNTED, other, 1);
    let _ = println!(rt; "RFC 8439 2.4.2: {}", Hex(&d));
}

pub fn blocks(rt: &impl Print) {
    block(rt, "RFC 8439 A.1 #1", inputs::ZEROS, inputs::NO_NONCE, 0);
    block(rt, "RFC 8439 A.1 #2", inputs::ZEROS, inputs::NO_NONCE, 1);
    block(
        rt,
        "RFC 8439 A.1 #3",
        inputs::ENDS_IN_ONE,
        inputs::NO_NONCE,
        1,
    );
    let mut key = inputs::ZEROS;
    key[1] = 0xff;
    block(rt, "RFC 8439 A.1 #4", key, inputs::NO_NONCE, 2);
    block(rt, "RFC 8439 A.1 #5", inputs::ZEROS, inputs::NONCE_TWO, 0)
}

pub fn texts(rt: &impl Print) {
    let mut a = [0; 64];
    chacha20::lay(&mut a, inputs::ZEROS, inputs::NO_NONCE, 0);
    let _ = println!(rt; "RFC 8439 A.2 #1: {}", Hex(&a));
    let mut b = inputs::CONTRIBUTION;
    chacha20::lay(&mut b, inputs::ENDS_IN_ONE, inputs::NONCE_TWO, 1);
    let _ = println!(rt; "RFC 8439 A.2 #2: {}", Hex(&b));
    let mut c = inputs::JABBERWOCKY;
    chacha20::lay(&mut c, inputs::MIXED, inputs::NONCE_TWO, 42);
    let _ = println!(rt; "RFC 8439 A.2 #3: {}", Hex(&c));
}
