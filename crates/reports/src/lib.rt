// The calls that tell of an open drive and change nothing: its report, and the stored bytes of a flake.
// It touches `drive` and `tree` for the tests, `records` for the counts, and `layout` and `answers`.
#![tactic(auto)]

mod counting;
mod told;

ghost use Rattle.std.specs.Prelude.{◌≡◌, Err};
ghost use Rattle.answers.specs.Answer.{Accepted};
ghost use Rattle.layout.specs.Shaped.{Shaped};
ghost use Rattle.reports.specs.Counts.{moved_in};
ghost use Rattle.reports.specs.Report.{report_answer, counted, refused, report_of};
ghost use Rattle.reports.specs.Stored.{is_flake, stored_answer, stored_flake, stored_at, onward};

use answers::{Answer, Refusal};
pub use counting::{count_of, counts_in, share_of};
use drive::Drive;
use layout::Shape;
pub use told::{Counts, Report};

// How many nuggets have this epoch.
pub fn moved_in(vol: &[u8], s: Shape, epoch: u16) -> u32
    requires { Shaped s vol.now }
    ensures { result ≡ moved_in s epoch vol.now s.n }
{
    counts_in(vol, s, epoch).moved
}

// What a report answers: 1, 2, 7 head, 7 whole.
fn report_answer(d: Drive, vol: &[u8]) -> Answer
    ensures { result ≡ report_answer d vol.now }
{
    drive::opening(d, vol)?;
    tree::whole(vol, drive::shape_of(d), drive::gauge_of(d))
}

// The report of n nuggets with these counts. Over counts that are no drive's more may have moved than there are: then none is left.
pub fn counted(n: u32, c: Counts) -> Report
    ensures { result ≡ counted Accepted n c }
{
    Report {
        answer: Ok(()),
        n,
        moved: c.moved,
        left: n.saturating_sub(c.moved),
        flakes: c.flakes,
        share: share_of(n, c),
        done: c.done,
    }
}

// A refusal has no numbers.
pub fn refused(refusal: Refusal) -> Report
    ensures { result ≡ refused (Err refusal) }
{
    Report {
        answer: Err(refusal),
        n: 0,
        moved: 0,
        left: 0,
        flakes: 0,
        share: 0,
        done: 0,
    }
}

pub fn report(d: Drive, vol: &[u8]) -> Report
    ensures { result ≡ report_of d vol.now }
{
    match report_answer(d, vol) {
        Ok(()) => counted(d.n, counts_in(vol, drive::shape_of(d), d.epoch)),
        Err(refusal) => refused(refusal),
    }
}

// Whether the drive has this nugget and this flake.
fn is_flake(d: Drive, nugget: u32, flake: u32) -> bool
    ensures { result ≡ is_flake d nugget flake }
{
    nugget < d.n && flake < d.p
}

// What a stored flake answers: 1, 2, 8.
pub fn stored_flake_answer(d: Drive, vol: &[u8], nugget: u32, flake: u32) -> Answer
    ensures { result ≡ stored_answer d vol.now nugget flake }
{
    drive::measure(d, vol)?;
    if is_flake(d, nugget, flake) {
        Ok(())
    } else {
        Err(Refusal::PastEnd)
    }
}

// "shows a backup tool the stored bytes as that part of the volume itself, no copy"
pub fn stored_flake<'a>(d: Drive, vol: &'a [u8], nugget: u32, flake: u32) -> &'a [u8]
    ensures { (result.now ≡ stored_flake d vol.now nugget flake)
        × (result.ref_ptr ≡ onward vol.entry.ref_ptr (stored_at d vol.now nugget flake)) }
{
    if stored_flake_answer(d, vol, nugget, flake).is_err() {
        return &vol[0..0];
    }
    let at = layout::flake_at(drive::shape_of(d), nugget, flake);
    &vol[at..at + d.f as usize]
}
