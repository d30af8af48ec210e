// AES-256 in counter mode, laid over a slice where it stands: NIST SP 800-38A, 6.5.
// It touches `words` and `aes`, and of `base`, `streams` and `field` the definitions alone.
#![tactic(auto)]

ghost use Rattle.std.specs.Prelude.{◌≡◌};
ghost use Rattle.aes.specs.Tables.{round_table};
ghost use Rattle.ctr.specs.Ctr.{counter_block, output_blocks, laid_under, counter_mode};

// Item 8: the keycount, then the number of the block, each most significant byte first.
pub fn counter_block(keycount: u64, number: u64) -> [u8; 16]
    ensures { result ≡ counter_block keycount number }
{
    let mut block = [0; 16];
    block[..8].copy_from_slice(&keycount.to_be_bytes());
    block[8..].copy_from_slice(&number.to_be_bytes());
    block
}

// Four output blocks.
fn four_blocks(t: &[u32; 256], w: &[u32; 60], keycount: u64, number: u64) -> [u8; 64]
    requires { t.now ≡ round_table }
    ensures { result ≡ output_blocks w.now keycount number 4 }
{
    let mut r = [0u8; 64];
    for i in 0..4 {
        let block = counter_block(keycount, number.wrapping_add(i as u64));
        words::copy(&mut r, 16 * i, &aes::encrypt(t, w, block));
    }
    r
}

// The output blocks from `number` on laid over `d`, under the words of a key; `t` is `aes::table()`.
pub fn lay_under(d: &mut [u8], t: &[u32; 256], w: &[u32; 60], keycount: u64, number: u64)
    requires { t.now ≡ round_table }
    ensures { d.new ≡ laid_under w.now keycount number d.old }
{
    let mut n = number;
    for at in (0..d.len()).step_by(64) {
        let end = d.len().min(at + 64);
        words::xor(&mut d[at..end], &four_blocks(t, w, keycount, n));
        n = n.wrapping_add(4);
    }
}

// The same under a key.
pub fn lay(d: &mut [u8], key: [u8; 32], keycount: u64, number: u64)
    ensures { d.new ≡ counter_mode key keycount number d.old }
{
    let t = aes::table();
    let w = aes::expand(&t, key);
    lay_under(d, &t, &w, keycount, number);
}
