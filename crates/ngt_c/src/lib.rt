// The C interface as C links it: each export calls the function of its name in `ngt` and states its clauses again.
#![tactic(auto)]

mod changing;
mod lines;
mod moves;
mod summary;

ghost use Rattle.layout.specs.Shape.{shape, shape_as};
ghost use Rattle.packed.specs.Image.{drive_in};
ghost use Rattle.line.specs.Lines.{Put};
ghost use Rattle.fleets.specs.Lines.{fleet_line};
ghost use Rattle.ngt.specs.Twins.{Compared};
ghost use Rattle.ngt.specs.Calls.{Formatted, Mounted, Filled, Exported, Reported, Shown};

// Format under version 1, with the image of the drive that it hands back.
#[unsafe(no_mangle)]
pub extern "C" fn ngt_format(
    vol: &mut [u8],
    n: u32,
    p: u32,
    f: u32,
    salt: &[u8; 16],
    secret: &[u8; 32],
    outside: u64,
    image: &mut [u8; 144],
    answer: &mut [u8; 16],
) -> u32
    ensures { Formatted (shape n p f) salt.now secret.now outside vol.old result vol.new image.new answer.new }
{
    ngt::ngt_format(vol, n, p, f, salt, secret, outside, image, answer)
}

// Format under a version and a cipher.
#[unsafe(no_mangle)]
pub extern "C" fn ngt_format_as(
    vol: &mut [u8],
    n: u32,
    p: u32,
    f: u32,
    version: u16,
    cipher: u8,
    salt: &[u8; 16],
    secret: &[u8; 32],
    outside: u64,
    image: &mut [u8; 144],
    answer: &mut [u8; 16],
) -> u32
    ensures { Formatted (shape_as version cipher n p f) salt.now secret.now outside vol.old result vol.new image.new answer.new }
{
    ngt::ngt_format_as(
        vol, n, p, f, version, cipher, salt, secret, outside, image, answer,
    )
}

// Mount, with the image of the drive that it hands back.
#[unsafe(no_mangle)]
pub extern "C" fn ngt_mount(
    vol: &[u8],
    present: &[u8; 32],
    old: &[u8; 32],
    outside: u64,
    image: &mut [u8; 144],
    answer: &mut [u8; 16],
) -> u32
    ensures { Mounted vol.now present.now old.now outside result image.new answer.new }
{
    ngt::ngt_mount(vol, present, old, outside, image, answer)
}

// Read into a lent buffer.
#[unsafe(no_mangle)]
pub extern "C" fn ngt_read(
    image: &[u8; 144],
    vol: &[u8],
    offset: u64,
    buf: &mut [u8],
    answer: &mut [u8; 16],
) -> u32
    ensures { Filled (drive_in image.now) vol.now offset buf.old result buf.new answer.new }
{
    ngt::ngt_read(image, vol, offset, buf, answer)
}

// Export into a lent buffer; `key` is the key for sectors, `tweak` the one for tweaks.
#[unsafe(no_mangle)]
pub extern "C" fn ngt_export(
    image: &[u8; 144],
    vol: &[u8],
    key: &[u8; 32],
    tweak: &[u8; 32],
    out: &mut [u8],
    answer: &mut [u8; 16],
) -> u32
    ensures { Exported (drive_in image.now) vol.now key.now tweak.now out.old
        result out.new answer.new }
{
    ngt::ngt_export(image, vol, key, tweak, out, answer)
}

// Report, "N, moved, left, flakes, share in hundredths of a percent, 4 bytes each; all zero if refused".
#[unsafe(no_mangle)]
pub extern "C" fn ngt_report(
    image: &[u8; 144],
    vol: &[u8],
    report: &mut [u8; 20],
    answer: &mut [u8; 16],
) -> u32
    ensures { Reported (drive_in image.now) vol.now result report.new answer.new }
{
    ngt::ngt_report(image, vol, report, answer)
}

// Stored flake, as "where the part begins in the volume and its length, 8 bytes each; both zero if refused".
#[unsafe(no_mangle)]
pub extern "C" fn ngt_stored_flake(
    image: &[u8; 144],
    vol: &[u8],
    nugget: u32,
    flake: u32,
    span: &mut [u8; 16],
    answer: &mut [u8; 16],
) -> u32
    ensures { Shown (drive_in image.now) vol.now nugget flake result span.new answer.new }
{
    ngt::ngt_stored_flake(image, vol, nugget, flake, span, answer)
}

// The fleet's line of drives' lines, in the first bytes of `out`; how many they are.
#[unsafe(no_mangle)]
pub extern "C" fn ngt_fleet(lines: &[u8], out: &mut [u8; 192]) -> u32
    ensures { Put out.old 0 (fleet_line lines.now) result out.new }
{
    ngt::ngt_fleet(lines, out)
}

// Twins: two messages with one BLAKE2s value, of two volumes that pass one nugget's path and differ there.
#[unsafe(no_mangle)]
pub extern "C" fn ngt_twins(
    image: &[u8; 144],
    first: &[u8],
    second: &[u8],
    nugget: u32,
    one: &mut [u8; 1055],
    two: &mut [u8; 1055],
    length: &mut [u8; 4],
    answer: &mut [u8; 16],
) -> u32
    ensures { Compared (drive_in image.now) first.now second.now nugget one.old two.old
        result one.new two.new length.new answer.new }
{
    ngt::ngt_twins(image, first, second, nugget, one, two, length, answer)
}
