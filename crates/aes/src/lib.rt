// AES-256 of FIPS 197: the key expansion and the cipher. A block under way is its four columns, each one word with its first byte lowest.
// It touches `words`, and of `base` and `field` the definitions alone.
#![tactic(auto)]

mod tables;

ghost use Rattle.std.specs.Prelude.{◌≡◌, ℕ, List, ◌++◌, ◌<◌, ◌≤◌, replicate};
ghost use Rattle.words.specs.Le.{words_of};
ghost use Rattle.words.specs.Xor.{xorl};
ghost use Rattle.field.specs.Sbox.{sbox};
ghost use Rattle.aes.specs.Aes.{sub_bytes, shift_rows, mix_columns, sub_word, temp_at, key_expansion, rounds, cipher};
ghost use Rattle.aes.specs.Code.{state_bytes, state_columns, sum_of, key_columns, looked_up, rows_by};
ghost use Rattle.aes.specs.Tables.{round_table};

// The words of a block. Not `words::Quad`: the definitions of this crate and of `ctr` name them.
#[derive(Clone, Copy)]
pub struct Columns {
    pub a: u32,
    pub b: u32,
    pub c: u32,
    pub d: u32,
}

// 3.4: the state of sixteen bytes.
pub fn load(block: [u8; 16]) -> Columns
    ensures { result ≡ state_columns block }
{
    Columns {
        a: words::load32(&block, 0),
        b: words::load32(&block, 4),
        c: words::load32(&block, 8),
        d: words::load32(&block, 12),
    }
}

// 3.4: the sixteen bytes of a state.
pub fn bytes(s: Columns) -> [u8; 16]
    ensures { result ≡ state_bytes s }
{
    let mut r = [0u8; 16];
    words::store32(&mut r, 0, s.a);
    words::store32(&mut r, 4, s.b);
    words::store32(&mut r, 8, s.c);
    words::store32(&mut r, 12, s.d);
    r
}

// 5.1.4: one state added to another.
pub fn add(s: Columns, k: Columns) -> Columns
    ensures { result ≡ sum_of s k }
{
    Columns {
        a: s.a ^ k.a,
        b: s.b ^ k.b,
        c: s.c ^ k.c,
        d: s.d ^ k.d,
    }
}

// The words of round n.
pub fn round_key(w: &[u32; 60], n: usize) -> Columns
    requires { n < 15 }
    ensures { result ≡ key_columns w.now n }
{
    Columns {
        a: w[4 * n],
        b: w[4 * n + 1],
        c: w[4 * n + 2],
        d: w[4 * n + 3],
    }
}

// The table of the rounds. A constant is copied where it is used: a caller takes it once, and lends it.
pub fn table() -> [u32; 256]
    ensures { result ≡ round_table }
{
    tables::ROUND
}

// One column of a round: a look-up for each of its bytes, in any table of columns.
pub fn looked_up(t: &[u32; 256], a: u32, b: u32, c: u32, d: u32) -> u32
    ensures { result ≡ looked_up t.now a b c d }
{
    let p = t[(a % 256) as usize];
    let q = t[(b / 256 % 256) as usize].rotate_left(8);
    let r = t[(c / 256 / 256 % 256) as usize].rotate_left(16);
    let s = t[(d / 256 / 256 / 256 % 256) as usize].rotate_left(24);
    p ^ q ^ r ^ s
}

// One direction of a block cipher.
pub trait Direction {
    // What it makes of a block.
    ghost turns: { Self → List ℕ → List ℕ };

    fn turn(&self, block: [u8; 16]) -> [u8; 16]
        ensures { result ≡ turns self.now block };
}

// The table of the rounds, lent.
#[derive(Clone, Copy)]
pub struct RoundTable<'a> {
    pub entries: &'a [u32; 256],
    ghost whole: { entries.now ≡ round_table },
}

impl RoundTable<'_> {
    // SUBBYTES, SHIFTROWS, MIXCOLUMNS and ADDROUNDKEY.
    fn round(self, s: Columns, k: Columns) -> Columns
        ensures { state_bytes result ≡ xorl (mix_columns (shift_rows (sub_bytes (state_bytes s)))) (state_bytes k) }
    {
        let t = self.entries;
        let mixed = Columns {
            a: looked_up(t, s.a, s.b, s.c, s.d),
            b: looked_up(t, s.b, s.c, s.d, s.a),
            c: looked_up(t, s.c, s.d, s.a, s.b),
            d: looked_up(t, s.d, s.a, s.b, s.c),
        };
        add(mixed, k)
    }

    // SUBBYTES and SHIFTROWS for one column: SBOX is the second byte of each entry.
    fn rows(self, a: u32, b: u32, c: u32, d: u32) -> u32
        ensures { result ≡ rows_by sbox a b c d }
    {
        let t = self.entries;
        let p = t[(a % 256) as usize] / 256 % 256;
        let q = t[(b / 256 % 256) as usize] / 256 % 256;
        let r = t[(c / 256 / 256 % 256) as usize] / 256 % 256;
        let s = t[(d / 256 / 256 / 256 % 256) as usize] / 256 % 256;
        p + 256 * (q + 256 * (r + 256 * s))
    }

    // The last round, which mixes no columns.
    fn last_round(self, s: Columns, k: Columns) -> Columns
        ensures { state_bytes result ≡ xorl (shift_rows (sub_bytes (state_bytes s))) (state_bytes k) }
    {
        let shifted = Columns {
            a: self.rows(s.a, s.b, s.c, s.d),
            b: self.rows(s.b, s.c, s.d, s.a),
            c: self.rows(s.c, s.d, s.a, s.b),
            d: self.rows(s.d, s.a, s.b, s.c),
        };
        add(shifted, k)
    }

    // 5.2: what temp = w[i - 1] becomes before it is added to w[i - 8].
    fn temp_at(self, i: usize, temp: u32) -> u32
        requires { (8 ≤ i) × (i < 60) }
        ensures { result ≡ temp_at i temp }
    {
        match i % 8 {
            0 => sub_word(self.entries, temp.rotate_right(8)) ^ (1 << (i / 8 - 1)),
            4 => sub_word(self.entries, temp),
            _ => temp,
        }
    }
}

// The words of a key, and the table.
#[derive(Clone, Copy)]
pub struct Forward<'t, 'w> {
    pub table: RoundTable<'t>,
    pub words: &'w [u32; 60],
}

impl Direction for Forward<'_, '_> {
    ghost turns = { λ c. cipher c.words.now };

    fn turn(&self, block: [u8; 16]) -> [u8; 16] {
        encrypt(self.table.entries, self.words, block)
    }
}

// 5.1: CIPHER under the words of a key; `t` is `table()`, which `encrypt`, `sub_word` and `expand` ask for: docs/DECISIONS.md names them.
pub fn encrypt(t: &[u32; 256], w: &[u32; 60], block: [u8; 16]) -> [u8; 16]
    requires { t.now ≡ round_table }
    ensures { result ≡ cipher w.now block }
{
    let table = RoundTable { entries: t };
    let mut x = add(load(block), round_key(w, 0));
    for n in 1..14 {
        x = table.round(x, round_key(w, n));
    }
    bytes(table.last_round(x, round_key(w, 14)))
}

// 5.2: SUBWORD.
pub fn sub_word(t: &[u32; 256], x: u32) -> u32
    requires { t.now ≡ round_table }
    ensures { result ≡ sub_word x }
{
    RoundTable { entries: t }.rows(x, x, x, x)
}

// The key's eight words, and zeros.
fn key_words(key: [u8; 32]) -> [u32; 60]
    ensures { result ≡ words_of 8 key ++ replicate 52 0 }
{
    let mut w = [0; 60];
    for i in 0..8 {
        w[i] = words::load32(&key, 4 * i);
    }
    w
}

// 5.2: KEYEXPANSION; `t` is `table()`.
pub fn expand(t: &[u32; 256], key: [u8; 32]) -> [u32; 60]
    requires { t.now ≡ round_table }
    ensures { result ≡ key_expansion key }
{
    let table = RoundTable { entries: t };
    let mut w = key_words(key);
    for i in 8..60 {
        w[i] = w[i - 8] ^ table.temp_at(i, w[i - 1]);
    }
    w
}
