// Discard: held bits of a flake range cleared, tested whole before the first store.
// It touches `laying` for what a change stores, and `nuggets`, `records`, `layout`, `drive` and `answers`.
#![tactic(auto)]

ghost use Rattle.std.specs.Prelude.{◌≡◌, ◌+◌, ◌<◌, ◌≤◌};
ghost use Rattle.layout.specs.Shaped.{Shaped};
ghost use Rattle.drive.specs.Drive.{shape_of};
ghost use Rattle.changes.specs.Discard.{range_fits, clears_none, clear_room, clear_tests, discard_answer, discard_work, discard_done, discard_volume};

use answers::{Answer, Refusal};
use drive::{Done, Drive};
use records::Way;

// "a flake range of one nugget": the flakes from the first on, as many as the count.
#[derive(Clone, Copy)]
pub struct Freed {
    pub nugget: u32,
    pub first: u32,
    pub count: u32,
}

// Test 8: "a nugget or range past the end". The sum is made in 64 bits, so that it can't roll over.
fn fits(d: Drive, freed: Freed) -> bool
    ensures { result ≡ range_fits (shape_of d) freed.nugget freed.first freed.count }
{
    let end = u64::from(freed.first) + u64::from(freed.count);
    freed.nugget < d.n && end <= u64::from(d.p)
}

// Whether no flake of the range is held.
fn clears_none(d: Drive, vol: &[u8], freed: Freed) -> bool
    requires { Shaped (shape_of d) vol.now × (freed.nugget < d.n) × (freed.first + freed.count ≤ d.p) }
    ensures { result ≡ clears_none d vol.now freed.nugget freed.first freed.count }
{
    let r = records::read(vol, drive::shape_of(d), freed.nugget);
    let range = records::range_of(freed.first, freed.count);
    records::share_none(r.held, range)
}

// "13 unless nothing is cleared"
fn test_room(d: Drive, vol: &[u8], freed: Freed) -> Answer
    requires { Shaped (shape_of d) vol.now × (freed.nugget < d.n) × (freed.first + freed.count ≤ d.p) }
    ensures { result ≡ clear_room d vol.now freed.nugget freed.first freed.count }
{
    if !clears_none(d, vol, freed) && d.counter == u64::MAX {
        return Err(Refusal::CounterTop);
    }
    Ok(())
}

// "7 path, 13 unless nothing is cleared"
fn clear_tests(d: Drive, vol: &[u8], freed: Freed) -> Answer
    requires { Shaped (shape_of d) vol.now × (freed.nugget < d.n) × (freed.first + freed.count ≤ d.p) }
    ensures { result ≡ clear_tests d vol.now freed.nugget freed.first freed.count }
{
    nuggets::test_path(d, vol, freed.nugget)?;
    test_room(d, vol, freed)
}

// "9 on version 1, 8 for a nugget or range past the end, 7 path, 13 unless nothing is cleared"
fn admit(d: Drive, vol: &[u8], freed: Freed) -> Answer
    ensures { result ≡ discard_answer d vol.now freed.nugget freed.first freed.count }
{
    drive::opening(d, vol)?;
    if d.version == 1 {
        return Err(Refusal::State);
    }
    if !fits(d, freed) {
        return Err(Refusal::PastEnd);
    }
    clear_tests(d, vol, freed)
}

// All that a discard stores before the head: the nugget's record, its leaf and path.
fn clear(d: Drive, vol: &mut [u8], freed: Freed)
    requires { Shaped (shape_of d) vol.old × (freed.nugget < d.n) × (freed.first + freed.count ≤ d.p) }
    ensures { vol.new ≡ discard_work d vol.old freed.nugget freed.first freed.count }
{
    let range = records::range_of(freed.first, freed.count);
    laying::mark(d, &mut *vol, freed.nugget, Way::Clear(range));
    laying::tend(
        &mut *vol,
        drive::shape_of(d),
        freed.nugget,
        Way::Clear(range),
    );
}

// "Discard takes a flake range of one nugget and clears held bits only"
pub fn discard(d: Drive, vol: &mut [u8], freed: Freed) -> Done
    ensures { (result ≡ discard_done d vol.old freed.nugget freed.first freed.count)
        × (vol.new ≡ discard_volume d vol.old freed.nugget freed.first freed.count) }
{
    let answer = admit(d, vol, freed);
    if answer.is_err() || clears_none(d, vol, freed) {
        return Done { answer, drive: d };
    }
    clear(d, &mut *vol, freed);
    let next = laying::advance(d, vol);
    Done {
        answer,
        drive: next,
    }
}
