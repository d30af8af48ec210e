// The tests of begin, sweep and finish, in document 01's order.
ghost use Rattle.std.specs.Prelude.{◌≡◌, ◌<◌};
ghost use Rattle.layout.specs.Shaped.{Shaped};
ghost use Rattle.drive.specs.Drive.{shape_of};
ghost use Rattle.changes.specs.Rekey.{begin_answer, sweep_answer, left_in, finish_answer, begin_tests, move_tests, nugget_tests, finish_tests};

use answers::{Answer, Refusal};
use drive::Drive;

// "9, 10, 15, 13"
fn begin_tests(d: Drive, secret: [u8; 32]) -> Answer
    ensures { result ≡ begin_tests d secret }
{
    if drive::is_changing(d.state) {
        return Err(Refusal::State);
    }
    if words::equal(&secret, &d.present) {
        return Err(Refusal::SameSecret);
    }
    if d.epoch == u16::MAX {
        return Err(Refusal::EpochTop);
    }
    if d.counter == u64::MAX {
        return Err(Refusal::CounterTop);
    }
    Ok(())
}

// "All others start 1, 2, 7 head"; "Begin: 9, 10, 15, 13."
pub fn begin(d: Drive, vol: &[u8], secret: [u8; 32]) -> Answer
    ensures { result ≡ begin_answer d vol.now secret }
{
    drive::opening(d, vol)?;
    begin_tests(d, secret)
}

// "12, 13, [..] 7 flakes": all flakes present, since all are enciphered afresh.
fn move_tests(d: Drive, vol: &[u8], n: u32) -> Answer
    requires { Shaped (shape_of d) vol.now × (n < d.n) }
    ensures { result ≡ move_tests d vol.now n }
{
    let s = drive::shape_of(d);
    let r = records::read(vol, s, n);
    if r.epoch == d.epoch {
        return Err(Refusal::Moved);
    }
    if d.counter == u64::MAX {
        return Err(Refusal::CounterTop);
    }
    nuggets::flakes(vol, s, nuggets::nugget_of(d, vol, n), r.held)
}

// "7 path, 12, 13, [..] 7 flakes"
fn nugget_tests(d: Drive, vol: &[u8], n: u32) -> Answer
    requires { Shaped (shape_of d) vol.now × (n < d.n) }
    ensures { result ≡ nugget_tests d vol.now n }
{
    nuggets::test_path(d, vol, n)?;
    move_tests(d, vol, n)
}

// "Sweep: 9, 8, 7 path, 12, 13, [..] 7 flakes."
pub fn sweep(d: Drive, vol: &[u8], n: u32) -> Answer
    ensures { result ≡ sweep_answer d vol.now n }
{
    drive::opening(d, vol)?;
    if !drive::is_changing(d.state) {
        return Err(Refusal::State);
    }
    if d.n <= n {
        return Err(Refusal::PastEnd);
    }
    nugget_tests(d, vol, n)
}

// How many nuggets are still under the old secret.
fn left_in(d: Drive, vol: &[u8]) -> u32
    requires { Shaped (shape_of d) vol.now }
    ensures { result ≡ left_in d vol.now }
{
    d.n - reports::moved_in(vol, drive::shape_of(d), d.epoch)
}

// "7 whole, 11, 13"
fn finish_tests(d: Drive, vol: &[u8]) -> Answer
    requires { Shaped (shape_of d) vol.now }
    ensures { result ≡ finish_tests d vol.now }
{
    tree::whole(vol, drive::shape_of(d), drive::gauge_of(d))?;
    let left = left_in(d, vol);
    if 0 < left {
        return Err(Refusal::Left(left));
    }
    if d.counter == u64::MAX {
        return Err(Refusal::CounterTop);
    }
    Ok(())
}

// "Finish: 9, 7 whole, 11, 13."
pub fn finish(d: Drive, vol: &[u8]) -> Answer
    ensures { result ≡ finish_answer d vol.now }
{
    drive::opening(d, vol)?;
    if !drive::is_changing(d.state) {
        return Err(Refusal::State);
    }
    finish_tests(d, vol)
}
