// The fleet's line for any input: what the program prints, as a function on slices.
// It touches `standings` to read each drive's line, `totals` to join the drives, and `line` to put the fleet's line.
#![tactic(auto)]

ghost use Rattle.std.specs.Prelude.{◌≡◌, ◌<◌, ◌≤◌, length, take};
ghost use Rattle.line.specs.Lines.{Put};
ghost use Rattle.totals.specs.Fleet.{Summed};
ghost use Rattle.fleets.specs.Lines.{unended, with_line, closed_line, open_line, gathered_in, fleet_line};

use line::Page;
use totals::Fleet;

// There is no 257th drive.
const MOST: u32 = 256;

// The number of the first line that isn't taken, or that is one too many.
#[derive(Clone, Copy)]
pub struct Open {
    pub line: u32,
}

// The fleet with one line more: one too many, which isn't read, or one that isn't taken, ends it.
fn with_line(f: Fleet, line: &[u8]) -> Result<Fleet, Open>
    requires { (f.drives ≤ 256) × Summed f }
    ensures { result ≡ with_line f line.now }
{
    if f.drives >= MOST {
        return Err(Open { line: f.drives + 1 });
    }
    match standings::found_in(line) {
        Some(t) => Ok(totals::joined(f, t)),
        None => Err(Open { line: f.drives + 1 }),
    }
}

// Its last byte tells where a line ends, so that no line is gone over for it.
fn unended(line: &[u8]) -> usize
    requires { 0 < length line.now }
    ensures { result ≡ unended line.now }
{
    let last = line.len() - 1;
    if line[last] == b'\n' {
        last
    } else {
        line.len()
    }
}

// Every line in turn, up to the first that isn't taken.
fn gather(input: &[u8]) -> Result<Fleet, Open>
    ensures { result ≡ gathered_in input.now }
{
    let mut fleet = totals::nobody();
    for line in input.split_inclusive(|b| *b == b'\n') {
        let end = unended(line);
        fleet = with_line(fleet, &line[..end])?;
    }
    Ok(fleet)
}

#[tactic(auto, using(line::proofs::PutLaws::reaches, standings::proofs::StandingLaws::standing_le))]
fn put_open(out: &mut [u8], line: u32) -> usize
    requires { 192 ≤ length out.old }
    ensures { Put out.old 0 (open_line line) result out.new }
{
    let mut page = Page { out, at: 0 };
    page.put_field(b"open=", line);
    page.put(b"\n");
    page.at
}

#[tactic(auto, using(line::proofs::PutLaws::reaches, standings::proofs::StandingLaws::standing_le))]
fn put_closed(out: &mut [u8], f: Fleet) -> usize
    requires { (192 ≤ length out.old) × Summed f }
    ensures { Put out.old 0 (closed_line f) result out.new }
{
    let mut page = Page { out, at: 0 };
    page.put_field(b"drives=", f.drives);
    page.put(b" ");
    standings::put_standing(&mut page, f.total);
    page.put_field(b" last=", f.last);
    page.put(b"\n");
    page.at
}

// The fleet's line for all that was lent, in the first bytes of `out`; how many they are.
pub fn fleet_line(input: &[u8], out: &mut [u8; 192]) -> usize
    ensures { Put out.old 0 (fleet_line input.now) result out.new }
{
    match gather(input) {
        Err(open) => put_open(out, open.line),
        Ok(f) if f.drives == 0 => put_open(out, 0),
        Ok(f) => put_closed(out, f),
    }
}

// The fleet's line for what was read into the buffer: 256 lines of at most 128 bytes, and one byte more. What stands behind
// them in the input changes nothing, and that is proved.
pub fn fleet_read(buffer: &[u8; 32769], read: usize, out: &mut [u8; 192]) -> usize
    ensures { Put out.old 0 (fleet_line (take read buffer.now)) result out.new }
{
    fleet_line(&buffer[..read.min(buffer.len())], out)
}
