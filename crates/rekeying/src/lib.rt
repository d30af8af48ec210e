// The change of the master secret: begin, sweep and finish, each tested whole before its first store.
// It touches `laying` for what a change stores, and `nuggets`, `tree`, `reports`, `records`, `layout`, `drive`, `answers` and `words`.
#![tactic(auto)]

mod admit;

ghost use Rattle.std.specs.Prelude.{◌≡◌, ◌<◌};
ghost use Rattle.layout.specs.Shaped.{Shaped};
ghost use Rattle.records.specs.Rule.{sweep_way, CanRise};
ghost use Rattle.drive.specs.Drive.{shape_of, counter_top};
ghost use Rattle.changes.specs.Rekey.{epoch_top, begun_drive, begin_done, begin_volume, sweep_work, sweep_done, sweep_volume, finished_drive, finish_done, finish_volume};
ghost use Rattle.records.specs.Record.{record_of};

use drive::{Done, Drive, State};
use laying::Written;
use records::Way;

// "state changing, epoch plus 1, the old secret kept"
fn begun(d: Drive, secret: [u8; 32]) -> Drive
    requires { (d.epoch < epoch_top) × (d.counter < counter_top) }
    ensures { result ≡ begun_drive d secret }
{
    let old = d.present;
    Drive {
        state: State::Changing(d.epoch),
        epoch: d.epoch + 1,
        counter: d.counter + 1,
        present: secret,
        old,
        ..d
    }
}

// "the state steady", the check zeroed with the old secret
fn finished(d: Drive) -> Drive
    requires { d.counter < counter_top }
    ensures { result ≡ finished_drive d }
{
    Drive {
        state: State::Steady,
        counter: d.counter + 1,
        old: [0; 32],
        ..d
    }
}

// "Begin takes a new secret: state changing, epoch plus 1, the old secret kept."
pub fn begin(d: Drive, vol: &mut [u8], secret: [u8; 32]) -> Done
    ensures { (result ≡ begin_done d vol.old secret) × (vol.new ≡ begin_volume d vol.old secret) }
{
    let answer = admit::begin(d, vol, secret);
    if answer.is_err() {
        return Done { answer, drive: d };
    }
    let next = begun(d, secret);
    laying::settle(next, vol);
    Done {
        answer,
        drive: next,
    }
}

// All that a sweep stores before the head: flakes and tags of the nugget, its record, its leaf and path.
fn rekey(d: Drive, vol: &mut [u8], n: u32)
    requires { Shaped (shape_of d) vol.old × (n < d.n) × CanRise sweep_way (record_of (shape_of d) vol.old n) }
    ensures { vol.new ≡ sweep_work d vol.old n }
{
    let nothing = Written {
        offset: 0,
        bytes: &[],
    };
    laying::lay(d, &mut *vol, n, Way::Rekey(0), &nothing);
    laying::mark(d, &mut *vol, n, Way::Rekey(0));
    laying::tend(&mut *vol, drive::shape_of(d), n, Way::Rekey(0));
}

// "Sweep takes a nugget and rekeys it with T empty."
pub fn sweep(d: Drive, vol: &mut [u8], n: u32) -> Done
    ensures { (result ≡ sweep_done d vol.old n) × (vol.new ≡ sweep_volume d vol.old n) }
{
    let answer = admit::sweep(d, vol, n);
    if answer.is_err() {
        return Done { answer, drive: d };
    }
    rekey(d, &mut *vol, n);
    let next = laying::advance(d, vol);
    Done {
        answer,
        drive: next,
    }
}

// "Finish makes the state steady and zeroes the check."
pub fn finish(d: Drive, vol: &mut [u8]) -> Done
    ensures { (result ≡ finish_done d vol.old) × (vol.new ≡ finish_volume d vol.old) }
{
    let answer = admit::finish(d, vol);
    if answer.is_err() {
        return Done { answer, drive: d };
    }
    let next = finished(d);
    laying::settle(next, vol);
    Done {
        answer,
        drive: next,
    }
}
