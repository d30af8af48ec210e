// The C interface of keys and tree, which comparisons go through.
// It touches `keys`, `tree` and `images`, and tests what it is given itself.
#![tactic(auto)]

ghost use Rattle.std.specs.Prelude.{◌≡◌};
ghost use Rattle.keys.specs.Keys.{nugget_key, tag_key, check_of, seal_of};
ghost use Rattle.keys.specs.Tags.{laid_out, named, tag_of};
ghost use Rattle.poly1305.specs.Poly1305.{poly1305};
ghost use Rattle.layout.specs.Shape.{shape};
ghost use Rattle.records.specs.Record.{against};
ghost use Rattle.images.specs.Answers.{answer_image};
ghost use Rattle.probe.specs.Probes.{lock_with, shaped_answer, path_answer, whole_answer, renew_answer, laid_bytes, renewed_bytes, built_bytes};

use answers::{Answer, Refusal};
use keys::Lock;
use layout::Shape;
use records::Gauge;

// A lock of that version, by the first cipher.
fn lock_with(version: u16, key: [u8; 32], number: u32, keycount: u64) -> Lock
    ensures { result ≡ lock_with version key number keycount }
{
    Lock {
        number,
        key,
        keycount,
        version,
        cipher: 0,
    }
}

// A shape of version 1.
fn shape(n: u32, p: u32, f: u32) -> Shape
    ensures { result ≡ shape n p f }
{
    Shape {
        n,
        p,
        f,
        version: 1,
        cipher: 0,
    }
}

#[unsafe(no_mangle)]
pub extern "C" fn ngt_nugget_key(secret: &[u8; 32], salt: &[u8; 16], n: u32, out: &mut [u8; 32])
    ensures { out.new ≡ nugget_key secret.now salt.now n }
{
    *out = keys::nugget_key(*secret, *salt, n);
}

#[unsafe(no_mangle)]
pub extern "C" fn ngt_tag_key(version: u16, key: &[u8; 32], f: u32, k: u64, out: &mut [u8; 32])
    ensures { out.new ≡ tag_key (lock_with version key.now 0 k) f }
{
    *out = keys::tag_key(lock_with(version, *key, 0, k), f);
}

#[unsafe(no_mangle)]
pub extern "C" fn ngt_check(old: &[u8; 32], salt: &[u8; 16], epoch: u16, out: &mut [u8; 32])
    ensures { out.new ≡ check_of old.now salt.now epoch }
{
    *out = keys::check_of(*old, *salt, epoch);
}

#[unsafe(no_mangle)]
pub extern "C" fn ngt_seal(secret: &[u8; 32], front: &[u8], node: &[u8], out: &mut [u8; 32])
    ensures { out.new ≡ seal_of secret.now front.now node.now }
{
    *out = keys::seal_of(*secret, front, node);
}

#[unsafe(no_mangle)]
pub extern "C" fn ngt_tag(
    stored: &[u8],
    version: u16,
    key: &[u8; 32],
    n: u32,
    k: u64,
    f: u32,
    out: &mut [u8; 16],
)
    ensures { out.new ≡ tag_of (lock_with version key.now n k) f stored.now }
{
    *out = keys::tag_of(stored, lock_with(version, *key, n, k), f);
}

// Poly1305 under any key over what a tag of version 2 is over.
#[unsafe(no_mangle)]
pub extern "C" fn ngt_named_tag(
    stored: &[u8],
    key: &[u8; 32],
    n: u32,
    k: u64,
    f: u32,
    out: &mut [u8; 16],
)
    ensures { out.new
        ≡ poly1305 key.now (laid_out (named (lock_with 2 key.now n k) f) stored.now) }
{
    let name = keys::name_of(lock_with(2, *key, n, k), f);
    *out = keys::tag_laid_out(*key, &name, stored);
}

// The pad of flake f laid over a flake; a slice over 4,096 bytes or a flake past 63 is left as it is.
#[unsafe(no_mangle)]
pub extern "C" fn ngt_lay_pad(flake: &mut [u8], key: &[u8; 32], k: u64, f: u32)
    ensures { flake.new ≡ laid_bytes key.now k f flake.old }
{
    if flake.len() <= 4096 && f < 64 {
        let size = flake.len();
        keys::lay_from(flake, lock_with(1, *key, 0, k), size, f, 0);
    }
}

// Tests 1 and 2 of a shape and a volume.
fn shaped(vol: &[u8], s: Shape) -> Answer
    ensures { result ≡ shaped_answer s vol.now }
{
    if !layout::in_limits(s) {
        return Err(Refusal::Limits);
    }
    if vol.len() != layout::length_of(s) {
        return Err(Refusal::Length);
    }
    Ok(())
}

// And 8 for the nugget.
fn shaped_nugget(vol: &[u8], s: Shape, n: u32) -> Answer
    ensures { result ≡ renew_answer s vol.now n }
{
    shaped(vol, s)?;
    if n < s.n {
        Ok(())
    } else {
        Err(Refusal::PastEnd)
    }
}

fn path(vol: &[u8], s: Shape, gauge: Gauge, n: u32) -> Answer
    ensures { result ≡ path_answer s gauge vol.now n }
{
    shaped_nugget(vol, s, n)?;
    tree::path(vol, s, gauge, n)
}

fn whole(vol: &[u8], s: Shape, gauge: Gauge) -> Answer
    ensures { result ≡ whole_answer s gauge vol.now }
{
    shaped(vol, s)?;
    tree::whole(vol, s, gauge)
}

#[unsafe(no_mangle)]
pub extern "C" fn ngt_path(
    vol: &[u8],
    n: u32,
    p: u32,
    f: u32,
    epoch: u16,
    changing: bool,
    counter: u64,
    nugget: u32,
    answer: &mut [u8; 16],
)
    ensures { answer.new ≡ answer_image (path_answer (shape n p f) (against epoch changing counter) vol.now nugget) }
{
    let a = path(
        vol,
        shape(n, p, f),
        Gauge {
            epoch,
            changing,
            counter,
        },
        nugget,
    );
    *answer = images::answer_image(a);
}

#[unsafe(no_mangle)]
pub extern "C" fn ngt_whole(
    vol: &[u8],
    n: u32,
    p: u32,
    f: u32,
    epoch: u16,
    changing: bool,
    counter: u64,
    answer: &mut [u8; 16],
)
    ensures { answer.new ≡ answer_image (whole_answer (shape n p f) (against epoch changing counter) vol.now) }
{
    let a = whole(
        vol,
        shape(n, p, f),
        Gauge {
            epoch,
            changing,
            counter,
        },
    );
    *answer = images::answer_image(a);
}

#[unsafe(no_mangle)]
pub extern "C" fn ngt_renew(vol: &mut [u8], n: u32, p: u32, f: u32, nugget: u32)
    ensures { vol.new ≡ renewed_bytes (shape n p f) nugget vol.old }
{
    let s = shape(n, p, f);
    if shaped_nugget(vol, s, nugget).is_ok() {
        tree::renew(vol, s, nugget);
    }
}

#[unsafe(no_mangle)]
pub extern "C" fn ngt_build(vol: &mut [u8], n: u32, p: u32, f: u32)
    ensures { vol.new ≡ built_bytes (shape n p f) vol.old }
{
    let s = shape(n, p, f);
    if shaped(vol, s).is_ok() {
        tree::build(vol, s);
    }
}
