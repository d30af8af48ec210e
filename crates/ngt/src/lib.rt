// The C interface of the drive: each call with its drive and its answer as bytes.
// It touches the calls' crates, `packed` and `images` for the bytes, and `fleets` for the fleet's line.
#![tactic(auto)]

pub mod changing;
pub mod lines;
pub mod moves;
pub mod summary;

ghost use Rattle.std.specs.Prelude.{◌≡◌, ◌++◌};
ghost use Rattle.words.specs.Le.{le};
ghost use Rattle.layout.specs.Shape.{shape, shape_as};
ghost use Rattle.packed.specs.Image.{drive_in};
ghost use Rattle.line.specs.Lines.{Put};
ghost use Rattle.fleets.specs.Lines.{fleet_line};
ghost use Rattle.ngt.specs.Twins.{Compared};
ghost use Rattle.ngt.specs.Calls.{Formatted, Mounted, Filled, Exported, Reported, Shown, Tells, span_image, image_after};

use answers::Answer;
use drive::{Done, Drive};
use layout::Shape;

// Format under version 1, with the image of the drive that it hands back.
pub fn ngt_format(
    vol: &mut [u8],
    n: u32,
    p: u32,
    f: u32,
    salt: &[u8; 16],
    secret: &[u8; 32],
    outside: u64,
    image: &mut [u8; 144],
    answer: &mut [u8; 16],
) -> u32
    ensures { Formatted (shape n p f) salt.now secret.now outside vol.old result vol.new image.new answer.new }
{
    ngt_format_as(vol, n, p, f, 1, 0, salt, secret, outside, image, answer)
}

// Format under a version and a cipher.
pub fn ngt_format_as(
    vol: &mut [u8],
    n: u32,
    p: u32,
    f: u32,
    version: u16,
    cipher: u8,
    salt: &[u8; 16],
    secret: &[u8; 32],
    outside: u64,
    image: &mut [u8; 144],
    answer: &mut [u8; 16],
) -> u32
    ensures { Formatted (shape_as version cipher n p f) salt.now secret.now outside vol.old result vol.new image.new answer.new }
{
    let s = Shape {
        n,
        p,
        f,
        version,
        cipher,
    };
    let done = opening::format(vol, s, *salt, *secret, outside);
    *image = packed::pack(done.drive);
    told(answer, done.answer)
}

// Mount, with the image of the drive that it hands back.
pub fn ngt_mount(
    vol: &[u8],
    present: &[u8; 32],
    old: &[u8; 32],
    outside: u64,
    image: &mut [u8; 144],
    answer: &mut [u8; 16],
) -> u32
    ensures { Mounted vol.now present.now old.now outside result image.new answer.new }
{
    let done = opening::mount(vol, *present, *old, outside);
    *image = packed::pack(done.drive);
    told(answer, done.answer)
}

// "The answer's image, 16 bytes, always stored"; "Each function also returns the number."
fn told(answer: &mut [u8; 16], a: Answer) -> u32
    ensures { Tells a result answer.new }
{
    *answer = images::answer_image(a);
    answers::number(a)
}

// "Where the drive comes back as given, no byte of the image is stored": it may lie on a page that can't be written then.
fn keep(image: &mut [u8; 144], changes: bool, d: Drive)
    ensures { image.new ≡ image_after changes d image.old }
{
    if changes {
        *image = packed::pack(d);
    }
}

// What a call that may change the drive leaves: the image, anew if it changed, and the answer.
fn hand_back(image: &mut [u8; 144], answer: &mut [u8; 16], done: Done, changes: bool) -> u32
    ensures { (image.new ≡ image_after changes done.drive image.old) × Tells done.answer result answer.new }
{
    keep(image, changes, done.drive);
    told(answer, done.answer)
}

// An image by value is known to have its 144 bytes.
fn opened(image: [u8; 144]) -> Drive
    ensures { result ≡ drive_in image }
{
    packed::unpack(&image)
}

// Read into a lent buffer.
pub fn ngt_read(
    image: &[u8; 144],
    vol: &[u8],
    offset: u64,
    buf: &mut [u8],
    answer: &mut [u8; 16],
) -> u32
    ensures { Filled (drive_in image.now) vol.now offset buf.old result buf.new answer.new }
{
    let a = reading::read(opened(*image), vol, offset, buf);
    told(answer, a)
}

// Export into a lent buffer; `key` is the key for sectors, `tweak` the one for tweaks.
pub fn ngt_export(
    image: &[u8; 144],
    vol: &[u8],
    key: &[u8; 32],
    tweak: &[u8; 32],
    out: &mut [u8],
    answer: &mut [u8; 16],
) -> u32
    ensures { Exported (drive_in image.now) vol.now key.now tweak.now out.old
        result out.new answer.new }
{
    let a = handing::export(opened(*image), vol, *key, *tweak, out);
    told(answer, a)
}

// Report, "N, moved, left, flakes, share in hundredths of a percent, 4 bytes each; all zero if refused".
pub fn ngt_report(
    image: &[u8; 144],
    vol: &[u8],
    report: &mut [u8; 20],
    answer: &mut [u8; 16],
) -> u32
    ensures { Reported (drive_in image.now) vol.now result report.new answer.new }
{
    let r = reports::report(opened(*image), vol);
    *report = images::row(&[r.n, r.moved, r.left, r.flakes, r.share]);
    told(answer, r.answer)
}

// A number as its 8 bytes.
fn long(x: u64) -> [u8; 8]
    ensures { result ≡ le 8 x }
{
    let mut out = [0u8; 8];
    words::store(&mut out, 0, 8, x);
    out
}

fn two(a: usize, b: u32) -> [u8; 16]
    ensures { result ≡ le 8 a ++ le 8 b }
{
    let mut out = [0u8; 16];
    words::store(&mut out, 0, 8, a as u64);
    words::store(&mut out, 8, 8, u64::from(b));
    out
}

fn span_image(d: Drive, vol: &[u8], nugget: u32, flake: u32) -> [u8; 16]
    ensures { result ≡ span_image d vol.now nugget flake }
{
    if reports::stored_flake_answer(d, vol, nugget, flake).is_ok() {
        two(layout::flake_at(drive::shape_of(d), nugget, flake), d.f)
    } else {
        [0u8; 16]
    }
}

// Stored flake, as "where the part begins in the volume and its length, 8 bytes each; both zero if refused".
pub fn ngt_stored_flake(
    image: &[u8; 144],
    vol: &[u8],
    nugget: u32,
    flake: u32,
    span: &mut [u8; 16],
    answer: &mut [u8; 16],
) -> u32
    ensures { Shown (drive_in image.now) vol.now nugget flake result span.new answer.new }
{
    let d = opened(*image);
    let a = reports::stored_flake_answer(d, vol, nugget, flake);
    *span = span_image(d, vol, nugget, flake);
    told(answer, a)
}

// The fleet's line of drives' lines, in the first bytes of `out`; how many they are.
pub fn ngt_fleet(lines: &[u8], out: &mut [u8; 192]) -> u32
    ensures { Put out.old 0 (fleet_line lines.now) result out.new }
{
    let k = fleets::fleet_line(lines, out);
    k as u32
}

// Twins: two messages with one BLAKE2s value, of two volumes that pass one nugget's path and differ there.
pub fn ngt_twins(
    image: &[u8; 144],
    first: &[u8],
    second: &[u8],
    nugget: u32,
    one: &mut [u8; 1055],
    two: &mut [u8; 1055],
    length: &mut [u8; 4],
    answer: &mut [u8; 16],
) -> u32
    ensures { Compared (drive_in image.now) first.now second.now nugget one.old two.old
        result one.new two.new length.new answer.new }
{
    let t = twins::find(opened(*image), first, second, nugget, one, two);
    *length = images::row(&[t.length]);
    told(answer, t.answer)
}
