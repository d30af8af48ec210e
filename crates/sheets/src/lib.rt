// The sheet's line for any input: what the program prints, as a function on slices.
// It touches `opening` to mount, `reports` to report, and `line`, `answers` and `words`.
#![tactic(auto)]

ghost use Rattle.std.specs.Prelude.{◌≡◌, ◌≤◌, length, take};
ghost use Rattle.line.specs.Lines.{Put};
ghost use Rattle.sheets.specs.Sheet.{reported_line, mounted_text, mounted_by, input_sized, sheet_line};

use answers::Refusal;
use drive::Done;
use reports::Report;

// The report's line, or its refusal's.
pub fn put_report(out: &mut [u8], r: Report) -> usize
    requires { 128 ≤ length out.old }
    ensures { Put out.old 0 (reported_line r) result out.new }
{
    match r.answer {
        Ok(()) => line::report_line(out, r.n, r.moved, r.left, r.flakes, r.share, r.done),
        Err(_) => line::refusal_line(out, r.answer),
    }
}

// The line after a mount.
pub fn put_mounted(out: &mut [u8], m: Done, vol: &[u8]) -> usize
    requires { 128 ≤ length out.old }
    ensures { Put out.old 0 (mounted_text m vol.now) result out.new }
{
    match m.answer {
        Ok(()) => put_report(out, reports::report(m.drive, vol)),
        Err(_) => line::refusal_line(out, m.answer),
    }
}

// "present secret, old secret, outside counter (8 bytes), then a volume": the mount of it.
pub fn mounted(input: &[u8]) -> Done
    requires { 72 ≤ length input.now }
    ensures { result ≡ mounted_by input.now }
{
    let present = words::taken(input, 0);
    let old = words::taken(input, 32);
    let outside = words::load(input, 64, 8);
    opening::mount(&input[72..], present, old, outside)
}

// "Input under 72 or over 61,512 bytes" is refused.
#[tactic(auto, unfolding(crate::specs::Sheet::input_sized))]
pub fn is_sized(input: &[u8]) -> bool
    ensures { result ≡ input_sized input.now }
{
    (72..=61512).contains(&input.len())
}

// The line of an input that has come whole.
fn put_line(input: &[u8], out: &mut [u8]) -> usize
    requires { 128 ≤ length out.old }
    ensures { Put out.old 0 (sheet_line input.now) result out.new }
{
    if !is_sized(input) {
        return line::refusal_line(out, Err(Refusal::Length));
    }
    put_mounted(out, mounted(input), &input[72..])
}

// The line for what was read into the buffer, in the first bytes of `out`; how many they are. The buffer has one byte more than
// "72 + 61,440": an input that fills it is over 61,512 bytes, wherever it ends.
pub fn sheet_line(buffer: &[u8; 61513], read: usize, out: &mut [u8; 128]) -> usize
    ensures { Put out.old 0 (sheet_line (take read buffer.now)) result out.new }
{
    if read > 61512 {
        return line::refusal_line(out, Err(Refusal::Length));
    }
    put_line(&buffer[..read], out)
}
