// Moving a volume between versions: all of it tested, then carried over into a second lent buffer. The given volume is only read.
// It touches `laying` for the last stores, `tree`, `nuggets`, `keys`, `records`, `drive`, `layout`, `answers` and `words`.
#![tactic(auto)]

mod carry;

ghost use Rattle.std.specs.Prelude.{◌≡◌, true, ◌<◌, length};
ghost use Rattle.layout.specs.Shape.{known_version};
ghost use Rattle.layout.specs.Shaped.{Shaped};
ghost use Rattle.drive.specs.Drive.{shape_of, counter_top};
ghost use Rattle.moving.specs.Carry.{entering, entered, moved_drive, moved_volume};
ghost use Rattle.moving.specs.Move.{ascending, held_tests, kept_tests, last_tests, parts_tests, leave_tests, move_answer, move_done, move_second, up_done, up_second, down_done, down_second};

use answers::{Answer, Refusal};
use drive::{Done, Drive};
use layout::Shape;

// The drive under another version, all else as it was.
fn entering(d: Drive, version: u16) -> Drive
    ensures { result ≡ entering version d }
{
    Drive { version, ..d }
}

// "flakes 7 ascending": the held ones of every nugget.
fn held_pass(d: Drive, vol: &[u8]) -> Answer
    requires { Shaped (shape_of d) vol.now }
    ensures { result ≡ ascending (held_tests d vol.now) d.n 0 }
{
    let s = drive::shape_of(d);
    for n in 0..d.n {
        let g = nuggets::nugget_of(d, vol, n);
        nuggets::flakes(vol, s, g, g.held)?;
    }
    Ok(())
}

// "some nugget has a spent flake that isn't held (lowest reported)": then its masks differ. In version 1 they are one mask.
fn all_kept(vol: &[u8], s: Shape) -> Answer
    requires { Shaped s vol.now }
    ensures { result ≡ ascending (kept_tests s vol.now) s.n 0 }
{
    for n in 0..s.n {
        let r = records::read(vol, s, n);
        if r.spent != r.held {
            return Err(Refusal::Discarded(n));
        }
    }
    Ok(())
}

// "16 [..] (lowest reported), then 13"
fn last_tests(d: Drive, vol: &[u8]) -> Answer
    requires { Shaped (shape_of d) vol.now }
    ensures { result ≡ last_tests d vol.now }
{
    all_kept(vol, drive::shape_of(d))?;
    if d.counter == u64::MAX {
        return Err(Refusal::CounterTop);
    }
    Ok(())
}

// "7 whole, flakes 7 ascending", and those.
fn parts_tests(d: Drive, vol: &[u8]) -> Answer
    requires { Shaped (shape_of d) vol.now }
    ensures { result ≡ parts_tests d vol.now }
{
    tree::whole(vol, drive::shape_of(d), drive::gauge_of(d))?;
    held_pass(d, vol)?;
    last_tests(d, vol)
}

// "7 head, 9 if not the version to leave", and those.
fn leave_tests(d: Drive, vol: &[u8], leave: u16) -> Answer
    ensures { result ≡ leave_tests leave d vol.now }
{
    drive::opening(d, vol)?;
    if d.version != leave {
        return Err(Refusal::State);
    }
    parts_tests(d, vol)
}

// "1, 2", of the volume and then of the second buffer, by the version to enter; and those.
fn admit(d: Drive, vol: &[u8], len: usize, leave: u16, enter: u16) -> Answer
    requires { known_version enter ≡ true }
    ensures { result ≡ move_answer leave enter d vol.now len }
{
    drive::measure(d, vol)?;
    if len != layout::length_of(drive::shape_of(entering(d, enter))) {
        return Err(Refusal::Length);
    }
    leave_tests(d, vol, leave)
}

// All that a move stores: the second buffer but for its head, then the drive with its counter and node 1, and the head that it makes.
fn carry_out(d: Drive, vol: &[u8], second: &mut [u8], enter: u16) -> Drive
    requires { Shaped (shape_of d) vol.now × Shaped (entered enter d) second.old × (d.counter < counter_top) }
    ensures { (result ≡ moved_drive enter d vol.now) × (second.new ≡ moved_volume enter d vol.now) }
{
    let x = entering(d, enter);
    carry::over(d, vol, &mut *second, drive::shape_of(x));
    laying::advance(x, second)
}

// One function for both directions.
// Both ways are the same steps over two numbers, which `move_done` takes.
fn move_between(d: Drive, vol: &[u8], second: &mut [u8], leave: u16, enter: u16) -> Done
    requires { known_version enter ≡ true }
    ensures { (result ≡ move_done leave enter d vol.now (length second.old))
        × (second.new ≡ move_second leave enter d vol.now second.old) }
{
    let answer = admit(d, vol, second.len(), leave, enter);
    if answer.is_err() {
        return Done { answer, drive: d };
    }
    let next = carry_out(d, vol, second, enter);
    Done {
        answer,
        drive: next,
    }
}

// "Moving up copies a version 1 volume into a second lent buffer as version 2": the drive becomes the second buffer's.
pub fn up(d: Drive, vol: &[u8], second: &mut [u8]) -> Done
    ensures { (result ≡ up_done d vol.now (length second.old))
        × (second.new ≡ up_second d vol.now second.old) }
{
    move_between(d, vol, second, 1, 2)
}

// "Moving down is the reverse."
pub fn down(d: Drive, vol: &[u8], second: &mut [u8]) -> Done
    ensures { (result ≡ down_done d vol.now (length second.old))
        × (second.new ≡ down_second d vol.now second.old) }
{
    move_between(d, vol, second, 2, 1)
}
