// The inverse of AES-256, FIPS 197: the equivalent inverse cipher of 5.3.5.
// It touches `aes`, and of `base`, `words` and `field` the definitions alone.
#![tactic(auto)]

mod tables;

ghost use Rattle.std.specs.Prelude.{◌≡◌};
ghost use Rattle.words.specs.Xor.{xorl};
ghost use Rattle.field.specs.Sbox.{inv_sbox};
ghost use Rattle.field.specs.Tables.{inv_sbox_table};
ghost use Rattle.aes.specs.Code.{state_bytes, rows_by};
ghost use Rattle.aes.specs.Tables.{round_table};
ghost use Rattle.aes_back.specs.InvAes.{inv_sub_bytes, inv_shift_rows, inv_mix_columns, key_expansion_eic, eq_inv_cipher};
ghost use Rattle.aes_back.specs.Tables.{inv_round_table};

use aes::{Columns, Direction};

// The table of the rounds back, to be taken once and lent.
pub fn table() -> [u32; 256]
    ensures { result ≡ inv_round_table }
{
    tables::INV_ROUND
}

// INVSBOX, to be taken once and lent.
pub fn inv_sbox() -> [u8; 256]
    ensures { result ≡ inv_sbox_table }
{
    tables::INV_SBOX
}

// The words of a key for the way back, and the two tables: that of the rounds, and INVSBOX.
#[derive(Clone, Copy)]
pub struct Backward<'t, 'b, 'w> {
    pub table: &'t [u32; 256],
    pub bytes: &'b [u8; 256],
    pub words: &'w [u32; 60],
    ghost whole: { table.now ≡ inv_round_table },
    ghost inverse: { bytes.now ≡ inv_sbox_table },
}

impl Backward<'_, '_, '_> {
    // INVSUBBYTES, INVSHIFTROWS, INVMIXCOLUMNS and ADDROUNDKEY. Each column takes its bytes from those before it, and in `aes` from
    // those behind it: one function for both would exchange two columns before and after, which is no plainer.
    fn round(&self, s: Columns, k: Columns) -> Columns
        ensures { state_bytes result ≡ xorl (inv_mix_columns (inv_shift_rows (inv_sub_bytes (state_bytes s)))) (state_bytes k) }
    {
        let t = self.table;
        let mixed = Columns {
            a: aes::looked_up(t, s.a, s.d, s.c, s.b),
            b: aes::looked_up(t, s.b, s.a, s.d, s.c),
            c: aes::looked_up(t, s.c, s.b, s.a, s.d),
            d: aes::looked_up(t, s.d, s.c, s.b, s.a),
        };
        aes::add(mixed, k)
    }

    // INVSUBBYTES and INVSHIFTROWS for one column.
    fn rows(&self, a: u32, b: u32, c: u32, d: u32) -> u32
        ensures { result ≡ rows_by inv_sbox a b c d }
    {
        let t = self.bytes;
        u32::from_le_bytes([
            t[(a % 256) as usize],
            t[(b / 256 % 256) as usize],
            t[(c / 256 / 256 % 256) as usize],
            t[(d / 256 / 256 / 256 % 256) as usize],
        ])
    }

    // The last round back, which mixes no columns.
    fn last_round(&self, s: Columns, k: Columns) -> Columns
        ensures { state_bytes result ≡ xorl (inv_shift_rows (inv_sub_bytes (state_bytes s))) (state_bytes k) }
    {
        let shifted = Columns {
            a: self.rows(s.a, s.d, s.c, s.b),
            b: self.rows(s.b, s.a, s.d, s.c),
            c: self.rows(s.c, s.b, s.a, s.d),
            d: self.rows(s.d, s.c, s.b, s.a),
        };
        aes::add(shifted, k)
    }
}

impl Direction for Backward<'_, '_, '_> {
    ghost turns = { λ c. eq_inv_cipher c.words.now };

    fn turn(&self, block: [u8; 16]) -> [u8; 16] {
        decrypt(self.table, self.bytes, self.words, block)
    }
}

// 5.3.5: EQINVCIPHER under the words of a key; `t` is `table()`, and `b` is `inv_sbox()`: docs/DECISIONS.md names what asks for them.
pub fn decrypt(t: &[u32; 256], b: &[u8; 256], dw: &[u32; 60], block: [u8; 16]) -> [u8; 16]
    requires { (t.now ≡ inv_round_table) × (b.now ≡ inv_sbox_table) }
    ensures { result ≡ eq_inv_cipher dw.now block }
{
    let back = Backward {
        table: t,
        bytes: b,
        words: dw,
    };
    let mut x = aes::add(aes::load(block), aes::round_key(dw, 14));
    // Counted up: `rev()` would keep a second counter in the loop, and is slower.
    for n in 1..14 {
        x = back.round(x, aes::round_key(dw, 14 - n));
    }
    aes::bytes(back.last_round(x, aes::round_key(dw, 0)))
}

// 5.3.5: KEYEXPANSIONEIC; `f` is `aes::table()`, and `t` is `table()`. The words of rounds 0 and 14 stand; to each other word
// INVMIXCOLUMNS is done by the table, which undoes SUBWORD on the way.
pub fn expand(f: &[u32; 256], t: &[u32; 256], key: [u8; 32]) -> [u32; 60]
    requires { (f.now ≡ round_table) × (t.now ≡ inv_round_table) }
    ensures { result ≡ key_expansion_eic key }
{
    let mut w = aes::expand(f, key);
    for i in 4..56 {
        let y = aes::sub_word(f, w[i]);
        w[i] = aes::looked_up(t, y, y, y, y);
    }
    w
}
