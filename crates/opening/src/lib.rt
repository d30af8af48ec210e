// Format and mount: a drive opened over a lent volume, made afresh or as it stands.
// It touches `drive`, `tree`, `nodes`, `records`, `keys`, `layout`, `answers` and `words`.
#![tactic(auto)]

mod head;

ghost use Rattle.std.specs.Prelude.{◌≡◌, ◌+◌, ◌<◌, ◌≤◌, length};
ghost use Rattle.drive.specs.Drive.{shape_of, counter_top};
ghost use Rattle.opening.specs.Format.{format_answer, bare, planted, fresh_drive, format_done, format_volume};
ghost use Rattle.opening.specs.Mount.{sealed, checked, shape_in, opened_drive, mount_done, keys_of, rest_of};
ghost use Rattle.opening.specs.Told.{told};
ghost use Rattle.layout.specs.Shaped.{Shaped};

use answers::{Answer, Refusal};
use drive::{Done, Drive, State};
use layout::Shape;
use records::Record;

// "Format: 1, 2, 13."
fn format_tests(vol: &[u8], s: Shape, outside: u64) -> Answer
    ensures { result ≡ format_answer s outside vol.now }
{
    if !layout::in_limits(s) {
        return Err(Refusal::Limits);
    }
    if vol.len() != layout::length_of(s) {
        return Err(Refusal::Length);
    }
    if outside == u64::MAX {
        return Err(Refusal::CounterTop);
    }
    Ok(())
}

// "Everything is zero [..]; epochs are 1"
fn lay_bare(vol: &mut [u8], s: Shape)
    requires { Shaped s vol.old }
    ensures { vol.new ≡ bare s }
{
    words::clear(&mut *vol);
    let fresh = Record {
        keycount: 0,
        spent: 0,
        held: 0,
        epoch: 1,
    };
    for n in 0..s.n {
        records::store(&mut *vol, s, n, fresh);
    }
}

// The drive of a volume that was just planted.
fn fresh_drive(vol: &[u8], s: Shape, salt: [u8; 16], secret: [u8; 32], outside: u64) -> Drive
    requires { Shaped s vol.now × (vol.now ≡ planted s) × (outside < counter_top) }
    ensures { result ≡ fresh_drive s salt secret outside }
{
    Drive {
        n: s.n,
        p: s.p,
        f: s.f,
        version: s.version,
        cipher: s.cipher,
        salt,
        state: State::Steady,
        epoch: 1,
        counter: outside + 1,
        node: nodes::first(vol, s),
        present: secret,
        old: [0u8; 32],
    }
}

// What a call that opens a drive hands back: "A refused format or mount returns the blank drive".
fn done(opened: Result<Drive, Refusal>) -> Done
    ensures { result ≡ told opened }
{
    match opened {
        Ok(drive) => Done {
            answer: Ok(()),
            drive,
        },
        Err(refusal) => Done {
            answer: Err(refusal),
            drive: drive::blank(),
        },
    }
}

// The volume planted and its head laid, after the tests.
fn plant(
    vol: &mut [u8],
    s: Shape,
    salt: [u8; 16],
    secret: [u8; 32],
    outside: u64,
) -> Result<Drive, Refusal>
    ensures { (told result ≡ format_done s salt secret outside vol.old) × (vol.new ≡ format_volume s salt secret outside vol.old) }
{
    format_tests(vol, s, outside)?;
    lay_bare(&mut *vol, s);
    tree::build(&mut *vol, s);
    let d = fresh_drive(vol, s, salt, secret, outside);
    words::copy(&mut *vol, 0, &drive::head(d));
    Ok(d)
}

// "Format takes N, P, F, salt, secret and the outside counter.", and by document 02, Items 4 and 8, the version and the cipher.
pub fn format(vol: &mut [u8], s: Shape, salt: [u8; 16], secret: [u8; 32], outside: u64) -> Done
    ensures { (result ≡ format_done s salt secret outside vol.old) × (vol.new ≡ format_volume s salt secret outside vol.old) }
{
    done(plant(&mut *vol, s, salt, secret, outside))
}

// The drive that the head's bytes, node 1 and the brought secrets make.
fn opened(vol: &[u8], present: [u8; 32], old: [u8; 32]) -> Drive
    requires { Shaped (shape_in vol.now) vol.now }
    ensures { result ≡ opened_drive vol.now present old }
{
    let s = head::shape_in(vol);
    let state = head::state_in(vol);
    Drive {
        n: s.n,
        p: s.p,
        f: s.f,
        version: s.version,
        cipher: s.cipher,
        salt: words::taken(vol, 16),
        state,
        epoch: head::epoch_in(vol),
        counter: words::load(vol, 32, 8),
        node: nodes::first(vol, s),
        present,
        old: drive::kept_old(state, old),
    }
}

// Test 4: the seal over the bytes as they stand
fn seal_stands(d: Drive, vol: &[u8]) -> bool
    requires { 104 ≤ length vol.now }
    ensures { result ≡ sealed d vol.now }
{
    words::equal(
        &vol[72..104],
        &keys::seal_of(d.present, &vol[0..72], &d.node),
    )
}

// Test 5: "old-secret check differs (when steady: from zeros)"
fn check_stands(d: Drive, vol: &[u8]) -> bool
    requires { 104 ≤ length vol.now }
    ensures { result ≡ checked d vol.now }
{
    words::equal(&vol[40..72], &drive::check_in(d))
}

// "4, 5, 6"
fn keys_fit(d: Drive, vol: &[u8], outside: u64) -> Answer
    requires { 104 ≤ length vol.now }
    ensures { result ≡ keys_of d vol.now outside }
{
    if !seal_stands(d, vol) {
        return Err(Refusal::Seal);
    }
    if !check_stands(d, vol) {
        return Err(Refusal::OldSecret);
    }
    if d.counter != outside {
        return Err(Refusal::Counter);
    }
    Ok(())
}

// "4, 5, 6, 7 whole"
fn rest(d: Drive, vol: &[u8], outside: u64) -> Answer
    requires { Shaped (shape_of d) vol.now }
    ensures { result ≡ rest_of d vol.now outside }
{
    keys_fit(d, vol, outside)?;
    tree::whole(vol, drive::shape_of(d), drive::gauge_of(d))
}

// The drive that the head's bytes make, after the tests.
fn take_up(vol: &[u8], present: [u8; 32], old: [u8; 32], outside: u64) -> Result<Drive, Refusal>
    ensures { told result ≡ mount_done vol.now present old outside }
{
    head::form(vol)?;
    let d = opened(vol, present, old);
    rest(d, vol, outside)?;
    Ok(d)
}

// "Mount takes both secrets (the old one unused when steady) and the outside counter."
pub fn mount(vol: &[u8], present: [u8; 32], old: [u8; 32], outside: u64) -> Done
    ensures { result ≡ mount_done vol.now present old outside }
{
    done(take_up(vol, present, old, outside))
}
