// The C interface of AES-256, both ways and in counter mode, for hosts in C, benchmarks and comparisons.
// It touches `aes`, `aes_back` and `ctr`, and of `base`, `words`, `streams` and `field` the definitions alone.
#![tactic(auto)]

ghost use Rattle.std.specs.Prelude.{◌≡◌};
ghost use Rattle.aes.specs.Aes.{aes256};
ghost use Rattle.aes_back.specs.InvAes.{inv_aes256};
ghost use Rattle.ctr.specs.Ctr.{counter_mode};

// FIPS 197, 5.1: the block encrypted.
#[unsafe(no_mangle)]
pub extern "C" fn ngt_aes256_encrypt(block: &mut [u8; 16], key: &[u8; 32])
    ensures { block.new ≡ aes256 key.now block.old }
{
    let t = aes::table();
    let w = aes::expand(&t, *key);
    *block = aes::encrypt(&t, &w, *block);
}

// FIPS 197, 5.3: the block decrypted.
#[unsafe(no_mangle)]
pub extern "C" fn ngt_aes256_decrypt(block: &mut [u8; 16], key: &[u8; 32])
    ensures { block.new ≡ inv_aes256 key.now block.old }
{
    let f = aes::table();
    let t = aes_back::table();
    let b = aes_back::inv_sbox();
    let dw = aes_back::expand(&f, &t, *key);
    *block = aes_back::decrypt(&t, &b, &dw, *block);
}

// SP 800-38A, 6.5: the output blocks from counter block (keycount, number) on laid over `d`.
#[unsafe(no_mangle)]
pub extern "C" fn ngt_aes256_ctr(d: &mut [u8], key: &[u8; 32], keycount: u64, number: u64)
    ensures { d.new ≡ counter_mode key.now keycount number d.old }
{
    ctr::lay(d, *key, keycount, number);
}
