// The auditor's page for any input: which flakes are under which key, as a function on slices.
// It touches `sheets` to mount and for the sheet's line, `records` and `layout` for the records, and `line`, `drive`, `answers` and `words`.
#![tactic(auto)]

ghost use Rattle.std.specs.Prelude.{[], ◌++◌, ◌+◌, ◌*◌, ◌≤◌, length, take};
ghost use Rattle.base.specs.Pick.{pick};
ghost use Rattle.records.specs.Journal.{bit};
ghost use Rattle.line.specs.Decimal.{decimal};
ghost use Rattle.line.specs.Lines.{Put};
ghost use Rattle.line.specs.Pages.{Puts};
ghost use Rattle.line.specs.Texts.{t_flakes};
ghost use Rattle.layout.specs.Shaped.{Shaped};
ghost use Rattle.drive.specs.Drive.{shape_of};
ghost use Rattle.pages.specs.Words.{t_key_is};
ghost use Rattle.pages.specs.Page.{key_text, present_flakes, flakes_text, sign_for, with_signs, nugget_line, nugget_lines, counter_line, old_line, drive_text, audit_page};

use answers::Refusal;
use drive::Drive;
use line::Page;
use records::Record;

// "One less means: under the old secret."
fn put_key(page: &mut Page, d: Drive, epoch: u16)
    requires { page.old.at + 12 ≤ length page.old.out.now }
    ensures { Puts page.old (t_key_is ++ key_text d epoch) page.new }
{
    if epoch != d.epoch {
        page.put(b" key=old")
    } else if drive::is_changing(d.state) {
        page.put(b" key=new")
    } else {
        page.put(b" key=present")
    }
}

// Flake f if it is present: behind the `=` of the list if it is the first there, else behind a comma.
fn put_flake(page: &mut Page, first: bool, journal: u64, f: u32)
    requires { page.old.at + 11 ≤ length page.old.out.now }
    ensures { Puts page.old (pick (bit journal f) (sign_for first ++ decimal f) []) page.new }
{
    if records::has(journal, f) {
        page.put_field(if first { b"=" } else { b"," }, f)
    }
}

// The present flakes, each behind its sign. Nothing is put yet as long as the place is the first.
fn put_with_signs(page: &mut Page, journal: u64, p: u32)
    requires { (p ≤ 64) × (page.old.at + 203 ≤ length page.old.out.now) }
    ensures { Puts page.old (with_signs (present_flakes p journal)) page.new }
{
    let start = page.at;
    for f in 0..p {
        let first = page.at == start;
        put_flake(page, first, journal, f);
    }
}

#[tactic(auto, using(crate::proofs::PageLaws::far))]
fn put_flakes(page: &mut Page, journal: u64, p: u32)
    requires { (p ≤ 64) × (page.old.at + 212 ≤ length page.old.out.now) }
    ensures { Puts page.old (t_flakes ++ flakes_text (present_flakes p journal)) page.new }
{
    page.put(b" flakes");
    let start = page.at;
    put_with_signs(page, journal, p);
    if page.at == start {
        page.put(b"=-");
    }
}

// The line of a nugget, at most 300 bytes.
#[tactic(auto, using(crate::proofs::PageLaws::far))]
pub fn put_nugget(page: &mut Page, d: Drive, r: Record, n: u32)
    requires { (d.p ≤ 64) × (page.old.at + 300 ≤ length page.old.out.now) }
    ensures { Puts page.old (nugget_line d r n) page.new }
{
    page.put_field(b"nugget=", n);
    put_key(page, d, r.epoch);
    page.put_field(b" epoch=", u32::from(r.epoch));
    page.put(b" keycount=");
    page.put_long(r.keycount);
    put_flakes(page, r.held, d.p);
    page.put(b"\n");
}

fn put_nuggets(page: &mut Page, d: Drive, vol: &[u8])
    requires { Shaped (shape_of d) vol.now × (page.old.at + 300 * d.n ≤ length page.old.out.now) }
    ensures { Puts page.old (nugget_lines d vol.now d.n) page.new }
{
    for n in 0..d.n {
        let r = records::read(vol, drive::shape_of(d), n);
        put_nugget(page, d, r, n);
    }
}

#[tactic(auto, using(crate::proofs::PageLaws::far))]
fn put_counter(page: &mut Page, outside: u64)
    requires { page.old.at + 29 ≤ length page.old.out.now }
    ensures { Puts page.old (counter_line outside) page.new }
{
    page.put(b"counter=");
    page.put_long(outside);
    page.put(b"\n");
}

// Only a finish frees the old secret; a share of 100.00 doesn't.
fn put_old(page: &mut Page, d: Drive)
    requires { page.old.at + 11 ≤ length page.old.out.now }
    ensures { Puts page.old (old_line d) page.new }
{
    if drive::is_changing(d.state) {
        page.put(b"old=needed\n")
    } else {
        page.put(b"old=free\n")
    }
}

// What a mounted drive adds to the sheet's line.
fn put_drive(page: &mut Page, d: Drive, vol: &[u8], outside: u64)
    requires { Shaped (shape_of d) vol.now × (page.old.at + 300 * d.n + 40 ≤ length page.old.out.now) }
    ensures { Puts page.old (drive_text d vol.now outside) page.new }
{
    put_nuggets(page, d, vol);
    put_counter(page, outside);
    put_old(page, d);
}

// The page of an input that has come whole. A volume of 61,440 bytes has at most 378 nuggets.
fn put_page(input: &[u8], out: &mut [u8]) -> usize
    requires { 114688 ≤ length out.old }
    ensures { Put out.old 0 (audit_page input.now) result out.new }
{
    if !sheets::is_sized(input) {
        return line::refusal_line(out, Err(Refusal::Length));
    }
    let m = sheets::mounted(input);
    let at = sheets::put_mounted(&mut *out, m, &input[72..]);
    if m.answer.is_err() {
        return at;
    }
    let mut page = Page { out, at };
    put_drive(&mut page, m.drive, &input[72..], words::load(input, 64, 8));
    page.at
}

// The page for what was read into the buffer, in the first bytes of `out`; how many they are. The buffer is as long as the
// sheet's and for the same reason.
pub fn audit_page(buffer: &[u8; 61513], read: usize, out: &mut [u8; 114688]) -> usize
    ensures { Put out.old 0 (audit_page (take read buffer.now)) result out.new }
{
    if read > 61512 {
        return line::refusal_line(out, Err(Refusal::Length));
    }
    put_page(&buffer[..read], out)
}
