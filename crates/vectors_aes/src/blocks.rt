// FIPS 197, C.3: one block both ways.
use crate::hex::Hex;

pub fn appendix_c(rt: &impl Print) {
    let key = *b"\x00\x01\x02\x03\x04\x05\x06\x07\x08\x09\x0a\x0b\x0c\x0d\x0e\x0f\
        \x10\x11\x12\x13\x14\x15\x16\x17\x18\x19\x1a\x1b\x1c\x1d\x1e\x1f";
    let plain = *b"\x00\x11\x22\x33\x44\x55\x66\x77\x88\x99\xaa\xbb\xcc\xdd\xee\xff";
    let t = aes::table();
    let w = aes::expand(&t, key);
    let sealed = aes::encrypt(&t, &w, plain);
    let _ = println!(rt; "FIPS 197 C.3, cipher: {}", Hex(&sealed));
    let u = aes_back::table();
    let b = aes_back::inv_sbox();
    let dw = aes_back::expand(&t, &u, key);
    let opened = aes_back::decrypt(&u, &b, &dw, sealed);
    let _ = println!(rt; "FIPS 197 C.3, inverse cipher: {}", Hex(&opened));
}
