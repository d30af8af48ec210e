// The C interface of the cipher, the tag and the hash, for hosts in C, benchmarks and comparisons.
// It touches `chacha20`, `poly1305` and `blake2s`, and of `base` and `words` the definitions alone.
#![tactic(auto)]

ghost use Rattle.std.specs.Prelude.{◌≡◌, []};
ghost use Rattle.chacha20.specs.ChaCha20.{encrypted};
ghost use Rattle.poly1305.specs.Poly1305.{poly1305};
ghost use Rattle.blake2s.specs.Hash.{blake2s};

// RFC 8439 2.4: the keystream from block `counter` on laid over `d`.
#[unsafe(no_mangle)]
pub extern "C" fn ngt_chacha20(d: &mut [u8], key: &[u8; 32], nonce: &[u8; 12], counter: u32)
    ensures { d.new ≡ encrypted key.now nonce.now counter d.old }
{
    chacha20::lay(d, *key, *nonce, counter);
}

// A function of its own, over a copy of the key: written in line it costs the tag a thirtieth (bench/).
fn tag_of(key: [u8; 32], m: &[u8]) -> [u8; 16]
    ensures { result ≡ poly1305 key m.now }
{
    let s = poly1305::start(key);
    let t = poly1305::absorb(s, m);
    poly1305::finish(t)
}

// RFC 8439 2.5: the tag of `m`.
#[unsafe(no_mangle)]
pub extern "C" fn ngt_poly1305(m: &[u8], key: &[u8; 32], tag: &mut [u8; 16])
    ensures { tag.new ≡ poly1305 key.now m.now }
{
    *tag = tag_of(*key, m);
}

// RFC 7693 3.3: the hash of `m`, without a key.
#[unsafe(no_mangle)]
pub extern "C" fn ngt_blake2s(m: &[u8], out: &mut [u8; 32])
    ensures { out.new ≡ blake2s [] m.now }
{
    *out = blake2s::finish(blake2s::absorb(blake2s::start(), m));
}

// RFC 7693 3.3: the hash of `m` under a key of 32 bytes.
#[unsafe(no_mangle)]
pub extern "C" fn ngt_blake2s_keyed(m: &[u8], key: &[u8; 32], out: &mut [u8; 32])
    ensures { out.new ≡ blake2s key.now m.now }
{
    *out = blake2s::finish(blake2s::absorb(blake2s::start_keyed(*key), m));
}
