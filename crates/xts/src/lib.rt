// XTS-AES-256 of IEEE 1619 over sectors of 512 bytes, where they stand.
// It touches `words`, `aes` and `aes_back`, and of `base` and `field` the definitions alone.
#![tactic(auto)]

ghost use Rattle.std.specs.Prelude.{◌≡◌, length};
ghost use Rattle.words.specs.Xor.{xorl};
ghost use Rattle.field.specs.Tables.{inv_sbox_table};
ghost use Rattle.aes.specs.Aes.{cipher};
ghost use Rattle.aes.specs.Code.{state_bytes};
ghost use Rattle.aes.specs.Tables.{round_table};
ghost use Rattle.aes_back.specs.InvAes.{eq_inv_cipher};
ghost use Rattle.aes_back.specs.Tables.{inv_round_table};
ghost use Rattle.xts.specs.Xts.{times_alpha, block_by, over_blocks, tweak_under, xts_encrypted, xts_decrypted};

use aes::{Columns, Direction, Forward, RoundTable};
use aes_back::Backward;

// 5.2: the tweak of the next block.
fn times_alpha(t: Columns) -> Columns
    ensures { state_bytes result ≡ times_alpha (state_bytes t) }
{
    let Columns { a, b, c, d } = t;
    Columns {
        a: (a % 2147483648 * 2) ^ (d / 2147483648 * 135),
        b: b % 2147483648 * 2 + a / 2147483648,
        c: c % 2147483648 * 2 + b / 2147483648,
        d: d % 2147483648 * 2 + c / 2147483648,
    }
}

fn sum(p: [u8; 16], t: Columns) -> [u8; 16]
    ensures { result ≡ xorl p (state_bytes t) }
{
    aes::bytes(aes::add(aes::load(p), t))
}

// 5.3.1 and 5.4.1: one block through the cipher or back.
fn block<C: Direction>(cipher: &C, t: Columns, p: [u8; 16]) -> [u8; 16]
    ensures { result ≡ block_by (C.turns cipher.now) (state_bytes t) p }
{
    sum(cipher.turn(sum(p, t)), t)
}

// 5.3.1: the tweak of sector i, under the words of Key2.
pub fn tweak(r: &[u32; 256], w: &[u32; 60], i: u64) -> [u8; 16]
    requires { r.now ≡ round_table }
    ensures { result ≡ tweak_under w.now i }
{
    let mut x = [0; 16];
    words::store(&mut x, 0, 8, i);
    aes::encrypt(r, w, x)
}

// A sector from its tweak on, through the cipher or back.
pub fn over<C: Direction>(d: &mut [u8], cipher: &C, t: [u8; 16])
    requires { length d.old ≡ 512 }
    ensures { d.new ≡ over_blocks (C.turns cipher.now) 32 t d.old }
{
    let mut x = aes::load(t);
    // By index: of a slice lent in chunks nothing is known afterwards.
    for j in 0..32 {
        let p = words::taken(d, 16 * j);
        words::copy(&mut *d, 16 * j, &block(cipher, x, p));
        x = times_alpha(x);
    }
}

// A sector encrypted from its tweak on, under the words of Key1; `r` is `aes::table()`.
pub fn encrypt_from(d: &mut [u8], r: &[u32; 256], w: &[u32; 60], t: [u8; 16])
    requires { (r.now ≡ round_table) × (length d.old ≡ 512) }
    ensures { d.new ≡ over_blocks (cipher w.now) 32 t d.old }
{
    let cipher = Forward {
        table: RoundTable { entries: r },
        words: w,
    };
    over(d, &cipher, t);
}

// A sector decrypted; `r` is `aes_back::table()`, `s` is `aes_back::inv_sbox()`, and `dw` are the words of `aes_back::expand`.
pub fn decrypt_from(d: &mut [u8], r: &[u32; 256], s: &[u8; 256], dw: &[u32; 60], t: [u8; 16])
    requires { (r.now ≡ inv_round_table) × (s.now ≡ inv_sbox_table) × (length d.old ≡ 512) }
    ensures { d.new ≡ over_blocks (eq_inv_cipher dw.now) 32 t d.old }
{
    let cipher = Backward {
        table: r,
        bytes: s,
        words: dw,
    };
    over(d, &cipher, t);
}

// Sector i encrypted under two keys.
pub fn encrypt_sector(d: &mut [u8], one: [u8; 32], two: [u8; 32], i: u64)
    requires { length d.old ≡ 512 }
    ensures { d.new ≡ xts_encrypted one two i d.old }
{
    let r = aes::table();
    let w = aes::expand(&r, one);
    let v = aes::expand(&r, two);
    encrypt_from(d, &r, &w, tweak(&r, &v, i));
}

// Sector i decrypted under two keys.
pub fn decrypt_sector(d: &mut [u8], one: [u8; 32], two: [u8; 32], i: u64)
    requires { length d.old ≡ 512 }
    ensures { d.new ≡ xts_decrypted one two i d.old }
{
    let f = aes::table();
    let r = aes_back::table();
    let s = aes_back::inv_sbox();
    let dw = aes_back::expand(&f, &r, one);
    let v = aes::expand(&f, two);
    decrypt_from(d, &r, &s, &dw, tweak(&f, &v, i));
}
