// The lines that a host prints: a refusal's, of an answer's image; the sheet's, of an open drive; the auditor's, of one nugget of it.
// It touches `sheets` and `pages` for the lines, `reports`, `drive`, `tree` and `records` for what they tell, and `images`, `line` and `answers`.
#![tactic(auto)]

ghost use Rattle.std.specs.Prelude.{◌≡◌, ◌≤◌, length};
ghost use Rattle.line.specs.Lines.{Put};
ghost use Rattle.images.specs.Back.{answer_in};
ghost use Rattle.sheets.specs.Sheet.{reported_line};
ghost use Rattle.reports.specs.Report.{report_of};
ghost use Rattle.telling.specs.Told.{refusal_text, Telling, nugget_answer, nugget_told};

use answers::{Answer, Refusal};
use drive::Drive;
use line::Page;

// The answer that a line was put for, and how many bytes the line has.
// No Result: a refusal has a line and its length too.
#[derive(Clone, Copy)]
pub struct Told {
    pub answer: Answer,
    pub count: u32,
}

fn put_refusal(out: &mut [u8], a: Answer) -> usize
    requires { 128 ≤ length out.old }
    ensures { Put out.old 0 (refusal_text a) result out.new }
{
    match a {
        Ok(()) => 0,
        Err(_) => line::refusal_line(out, a),
    }
}

// The refusal's line of an answer's image in the first bytes of `out`; how many they are. None if it tells no refusal.
pub fn refusal_line(image: &[u8; 16], out: &mut [u8; 128]) -> u32
    ensures { Put out.old 0 (refusal_text (answer_in image.now)) result out.new }
{
    put_refusal(out, images::answer_in(image)) as u32
}

// "accepted, the report's line; refused, the refusal's"
pub fn sheet_line(d: Drive, vol: &[u8], out: &mut [u8; 192]) -> Told
    ensures { Telling (report_of d vol.now).answer (reported_line (report_of d vol.now)) out.old result out.new }
{
    let r = reports::report(d, vol);
    Told {
        answer: r.answer,
        count: sheets::put_report(out, r) as u32,
    }
}

// What a nugget's line answers: 1, 2, 7 head, 8, 7 path.
fn nugget_answer(d: Drive, vol: &[u8], n: u32) -> Answer
    ensures { result ≡ nugget_answer d vol.now n }
{
    drive::opening(d, vol)?;
    if n >= d.n {
        return Err(Refusal::PastEnd);
    }
    tree::path(vol, drive::shape_of(d), drive::gauge_of(d), n)
}

fn put_nugget(out: &mut [u8], d: Drive, vol: &[u8], n: u32, a: Answer) -> usize
    requires { (320 ≤ length out.old) × (a ≡ nugget_answer d vol.now n) }
    ensures { Put out.old 0 (nugget_told d vol.now n) result out.new }
{
    if a.is_err() {
        return line::refusal_line(out, a);
    }
    let r = records::read(vol, drive::shape_of(d), n);
    let mut page = Page { out, at: 0 };
    pages::put_nugget(&mut page, d, r, n);
    page.at
}

// "the auditor's page's for that nugget, to the byte"; refused, the refusal's line
pub fn nugget_line(d: Drive, vol: &[u8], n: u32, out: &mut [u8; 320]) -> Told
    ensures { Telling (nugget_answer d vol.now n) (nugget_told d vol.now n) out.old result out.new }
{
    let answer = nugget_answer(d, vol, n);
    Told {
        answer,
        count: put_nugget(out, d, vol, n, answer) as u32,
    }
}
