// Document 01's keys, pads and tags: which message is hashed for which key, and what is laid over a flake.
// It touches `words`, `chacha20`, `ctr`, `poly1305` and `blake2s`, and of `base`, `messages` and `aes` the definitions and laws alone; no
// flake is copied, and no secret is kept.
#![tactic(auto)]

ghost use Rattle.std.specs.Prelude.{◌≡◌, ◌∷◌, ◌++◌, ◌+◌, ◌/◌, ◌%◌, ◌^◌, ◌<◌, ◌≤◌, length, drop, replicate};
ghost use Rattle.words.specs.Le.{le};
ghost use Rattle.words.specs.Xor.{xorl};
ghost use Rattle.messages.specs.Messages.{tag_letter};
ghost use Rattle.poly1305.specs.Poly1305.{poly1305};
ghost use Rattle.blake2s.specs.Hash.{blake2s};
ghost use Rattle.keys.specs.Keys.{nugget_key, tag_key, check_of, seal_of};
ghost use Rattle.keys.specs.Ciphers.{nonce_of};
ghost use Rattle.keys.specs.Pads.{unit_of, first_block, stream_from, pad_of, pad_from};
ghost use Rattle.keys.specs.Tags.{pad16, laid_out, named, tag_of};

// Under what a nugget's flakes lie: the nugget, its key, its keycount, and the volume's version and cipher. Pads and tags are functions of it.
#[derive(Clone, Copy)]
pub struct Lock {
    pub number: u32,
    pub key: [u8; 32],
    pub keycount: u64,
    pub version: u16,
    pub cipher: u8,
}

// The hash of a letter and two parts, keyed.
fn lettered(key: [u8; 32], letter: u8, a: &[u8], b: &[u8]) -> [u8; 32]
    ensures { result ≡ blake2s key (letter ∷ (a.now ++ b.now)) }
{
    let first = [letter];
    let s0 = blake2s::start_keyed(key);
    let s1 = blake2s::absorb(s0, &first);
    let s2 = blake2s::absorb(s1, a);
    let s3 = blake2s::absorb(s2, b);
    blake2s::finish(s3)
}

pub fn nugget_key(secret: [u8; 32], salt: [u8; 16], n: u32) -> [u8; 32]
    ensures { result ≡ nugget_key secret salt n }
{
    lettered(secret, b'N', &salt, &n.to_le_bytes())
}

// "The tag key's letter becomes `G`."
fn letter_of(version: u16) -> u8
    ensures { result ≡ tag_letter version }
{
    if version == 1 { b'F' } else { b'G' }
}

pub fn tag_key(lock: Lock, f: u32) -> [u8; 32]
    ensures { result ≡ tag_key lock f }
{
    let mut flake = [0u8; 2];
    words::store(&mut flake, 0, 2, u64::from(f));
    let letter = letter_of(lock.version);
    lettered(lock.key, letter, &flake, &lock.keycount.to_le_bytes())
}

pub fn check_of(old: [u8; 32], salt: [u8; 16], epoch: u16) -> [u8; 32]
    ensures { result ≡ check_of old salt epoch }
{
    lettered(old, b'O', &salt, &epoch.to_le_bytes())
}

pub fn seal_of(secret: [u8; 32], front: &[u8], node: &[u8]) -> [u8; 32]
    ensures { result ≡ seal_of secret front.now node.now }
{
    lettered(secret, b'H', front, node)
}

// "nonce of four zero bytes then the keycount"
fn nonce_of(k: u64) -> [u8; 12]
    ensures { result ≡ nonce_of k }
{
    let mut r = [0u8; 12];
    words::store(&mut r, 4, 8, k);
    r
}

// How many bytes a block of keystream has.
// By the number: a lock may hold any, and others count as ChaCha20 (`cipher_of`).
fn unit_of(cipher: u8) -> usize
    ensures { result ≡ unit_of cipher }
{
    if cipher == 16 { 16 } else { 64 }
}

// The number of the block that byte b of the pad of flake f lies in.
fn block_of(cipher: u8, size: usize, f: u32, b: usize) -> u32
    requires { (size ≤ 4096) × (f < 64) × (b ≤ size) }
    ensures { (result ≡ first_block (unit_of cipher) size f + b / unit_of cipher) × (result < 2 ^ 20) }
{
    let unit = unit_of(cipher);
    (f as usize * size / unit + b / unit) as u32
}

// The keystream from block n on laid over d, by either cipher.
fn lay_blocks(d: &mut [u8], lock: Lock, n: u32)
    requires { (n < 2 ^ 21) × (length d.old ≤ 4096) }
    ensures { d.new ≡ xorl d.old (stream_from lock n 0 (length d.old)) }
{
    if lock.cipher == 16 {
        ctr::lay(&mut *d, lock.key, lock.keycount, u64::from(n));
    } else {
        chacha20::lay(&mut *d, lock.key, nonce_of(lock.keycount), n);
    }
}

// The same from byte `skip` of block n on: the first 64 bytes of it by scratch, what is behind them where it stands.
fn lay_skewed(d: &mut [u8], lock: Lock, n: u32, skip: usize)
    requires { (n < 2 ^ 20) × (skip < 64) × (length d.old ≤ 4096) }
    ensures { d.new ≡ xorl d.old (stream_from lock n skip (length d.old)) }
{
    let mut first = [0u8; 64];
    lay_blocks(&mut first, lock, n);
    let m = 64 - skip;
    if d.len() <= m {
        words::xor(&mut *d, &first[skip..64]);
        return;
    }
    words::xor(&mut d[0..m], &first[skip..64]);
    let more = (64 / unit_of(lock.cipher)) as u32;
    lay_blocks(&mut d[m..], lock, n + more);
}

// The same; from a block's first byte on all of it is laid where it stands.
fn lay_stream(d: &mut [u8], lock: Lock, n: u32, skip: usize)
    requires { (n < 2 ^ 20) × (skip < 64) × (length d.old ≤ 4096) }
    ensures { d.new ≡ xorl d.old (stream_from lock n skip (length d.old)) }
{
    if skip == 0 {
        lay_blocks(&mut *d, lock, n);
    } else {
        lay_skewed(&mut *d, lock, n, skip);
    }
}

// The pad of flake f from its byte b on laid over d, a piece of the flake: over contents it makes the stored bytes, over those the contents.
pub fn lay_from(d: &mut [u8], lock: Lock, size: usize, f: u32, b: usize)
    requires { (size ≤ 4096) × (f < 64) × (b + length d.old ≤ size) }
    ensures { d.new ≡ xorl d.old (drop b (pad_of lock f size)) }
{
    let n = block_of(lock.cipher, size, f, b);
    lay_stream(d, lock, n, b % unit_of(lock.cipher));
}

// 512 bytes of keystream from block n on into scratch; ChaCha20 makes them at once.
fn eight_from(r: &mut [u8], lock: Lock, n: u32)
    requires { (length r.old ≡ 512) × (n < 2 ^ 20) }
    ensures { r.new ≡ stream_from lock n 0 512 }
{
    if lock.cipher == 16 {
        words::clear(&mut *r);
        lay_blocks(&mut *r, lock, n);
        return;
    }
    chacha20::eight(&mut *r, lock.key, nonce_of(lock.keycount), n);
}

// 512 bytes of scratch: the pad of flake f from its byte b on, and zeros behind its end.
pub fn pad_from(r: &mut [u8], lock: Lock, size: usize, f: u32, b: usize)
    requires { (length r.old ≡ 512) × (size ≤ 4096) × (f < 64) × (b ≤ size) × (b % 64 ≡ 0) }
    ensures { r.new ≡ pad_from lock f size b }
{
    let n = size - b;
    if 512 <= n {
        let block = block_of(lock.cipher, size, f, b);
        eight_from(&mut *r, lock, block);
        return;
    }
    words::clear(&mut *r);
    lay_from(&mut r[0..n], lock, size, f, b);
}

// Poly1305 over three pieces, one behind the other: what the tags of both versions come to.
fn over(key: [u8; 32], front: &[u8], text: &[u8], back: &[u8]) -> [u8; 16]
    ensures { result ≡ poly1305 key (front.now ++ (text.now ++ back.now)) }
{
    let s0 = poly1305::start(key);
    let s1 = poly1305::absorb(s0, front);
    let s2 = poly1305::absorb(s1, text);
    let s3 = poly1305::absorb(s2, back);
    poly1305::finish(s3)
}

// Associated data of one block at most, with its padding.
fn front_of(ad: &[u8]) -> [u8; 16]
    requires { (0 < length ad.now) × (length ad.now ≤ 16) }
    ensures { result ≡ ad.now ++ pad16 ad.now }
{
    let mut r = [0u8; 16];
    words::copy(&mut r, 0, ad);
    r
}

// A block of zeros, of which the text's padding is the end, and the two lengths.
fn back_of(ad: usize, text: usize) -> [u8; 32]
    ensures { result ≡ replicate 16 0 ++ (le 8 ad ++ le 8 text) }
{
    let mut r = [0u8; 32];
    words::store(&mut r, 16, 8, ad as u64);
    words::store(&mut r, 24, 8, text as u64);
    r
}

// Poly1305 over associated data and text as RFC 8439 2.8 lays them out.
pub fn tag_laid_out(key: [u8; 32], ad: &[u8], text: &[u8]) -> [u8; 16]
    requires { (0 < length ad.now) × (length ad.now ≤ 16) }
    ensures { result ≡ poly1305 key (laid_out ad.now text.now) }
{
    let front = front_of(ad);
    let back = back_of(ad.len(), text.len());
    let at = (text.len() % 16 + 15) % 16 + 1;
    over(key, &front, text, &back[at..32])
}

// What a tag of version 2 names.
pub fn name_of(lock: Lock, f: u32) -> [u8; 14]
    ensures { result ≡ named lock f }
{
    let mut r = [0u8; 14];
    words::store(&mut r, 0, 4, u64::from(lock.number));
    words::store(&mut r, 4, 2, u64::from(f));
    words::store(&mut r, 6, 8, lock.keycount);
    r
}

pub fn tag_of(stored: &[u8], lock: Lock, f: u32) -> [u8; 16]
    ensures { result ≡ tag_of lock f stored.now }
{
    let t = tag_key(lock, f);
    if lock.version == 1 {
        let none = [0u8; 0];
        return over(t, &none, stored, &none);
    }
    let name = name_of(lock, f);
    tag_laid_out(t, &name, stored)
}
