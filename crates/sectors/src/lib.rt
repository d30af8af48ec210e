// Whole sectors in a row under two keys, where they stand: each key is expanded once.
// It touches `xts` for each sector and `aes` and `aes_back` for the keys, and of `base`, `words` and `field` the definitions alone.
#![tactic(auto)]

ghost use Rattle.std.specs.Prelude.{◌≡◌, ◌+◌, ◌/◌, ◌%◌, ◌<◌, ◌^◌, length};
ghost use Rattle.xts.specs.Xts.{sector_by, over_sectors};
ghost use Rattle.sectors.specs.Sectors.{encrypted_from, decrypted_from};

use aes::{Direction, Forward, RoundTable};
use aes_back::Backward;

// The sectors from number `first` on, through the cipher or back; `tweaks` has the words of Key2.
fn under<C: Direction>(d: &mut [u8], cipher: &C, tweaks: &Forward, first: u64)
    requires { (length d.old % 512 ≡ 0) × (first + length d.old / 512 < 2 ^ 64) }
    ensures { d.new
        ≡ over_sectors (sector_by (C.turns cipher.now) tweaks.now.words.now) (length d.old / 512) first d.old }
{
    // By index: of a slice lent in chunks nothing is known afterwards.
    for i in 0..d.len() / 512 {
        let t = xts::tweak(tweaks.table.entries, tweaks.words, first + i as u64);
        xts::over(&mut d[512 * i..512 * i + 512], cipher, t);
    }
}

// Sectors encrypted, the first of them of number `first`.
pub fn encrypt(d: &mut [u8], one: [u8; 32], two: [u8; 32], first: u64)
    requires { (length d.old % 512 ≡ 0) × (first + length d.old / 512 < 2 ^ 64) }
    ensures { d.new ≡ encrypted_from one two first d.old }
{
    let r = aes::table();
    let table = RoundTable { entries: &r };
    let w = aes::expand(&r, one);
    let v = aes::expand(&r, two);
    let cipher = Forward { table, words: &w };
    let tweaks = Forward { table, words: &v };
    under(d, &cipher, &tweaks, first);
}

// Sectors decrypted, the first of them of number `first`.
pub fn decrypt(d: &mut [u8], one: [u8; 32], two: [u8; 32], first: u64)
    requires { (length d.old % 512 ≡ 0) × (first + length d.old / 512 < 2 ^ 64) }
    ensures { d.new ≡ decrypted_from one two first d.old }
{
    let f = aes::table();
    let r = aes_back::table();
    let s = aes_back::inv_sbox();
    let dw = aes_back::expand(&f, &r, one);
    let v = aes::expand(&f, two);
    let cipher = Backward {
        table: &r,
        bytes: &s,
        words: &dw,
    };
    let tweaks = Forward {
        table: RoundTable { entries: &f },
        words: &v,
    };
    under(d, &cipher, &tweaks, first);
}
