// The open drive, the 104 bytes of head that it makes, and the tests that every call on it starts with.
// It touches `keys` for check and seal, `records` for the gauge, and `layout`, `answers` and `words`.
#![tactic(auto)]

ghost use Rattle.std.specs.Prelude.{◌≡◌, true, length};
ghost use Rattle.layout.specs.Shape.{in_limits};
ghost use Rattle.layout.specs.Parts.{length_of};
ghost use Rattle.drive.specs.Drive.{shape_of, is_changing, gauge_of, headed, kept_old, blank_drive};
ghost use Rattle.drive.specs.Head.{state_byte, numbers_of, check_in, front_in, front_from, head_of};
ghost use Rattle.drive.specs.Opening.{state_fits, in_form, measure_of, head_stands, opening_of};

use answers::{Answer, Place, Refusal};
use layout::Shape;
use records::Gauge;

// "State is either steady or changing, and changing carries the epoch being left."
#[derive(Clone, Copy)]
pub enum State {
    Steady,
    Changing(u16),
}

// "The open drive is one record": N, P, F, version, cipher, salt, state, epoch, counter, node 1, present secret and old secret.
#[derive(Clone, Copy)]
pub struct Drive {
    pub n: u32,
    pub p: u32,
    pub f: u32,
    pub version: u16,
    pub cipher: u8,
    pub salt: [u8; 16],
    pub state: State,
    pub epoch: u16,
    pub counter: u64,
    pub node: [u8; 32],
    pub present: [u8; 32],
    pub old: [u8; 32],
}

// What a call that may change the drive hands back. No Result: document 01 returns the drive as given with a refusal too.
#[derive(Clone, Copy)]
pub struct Done {
    pub answer: Answer,
    pub drive: Drive,
}

// "the blank drive: every field zero, steady"
pub fn blank() -> Drive
    ensures { result ≡ blank_drive }
{
    Drive {
        n: 0,
        p: 0,
        f: 0,
        version: 0,
        cipher: 0,
        salt: [0u8; 16],
        state: State::Steady,
        epoch: 0,
        counter: 0,
        node: [0u8; 32],
        present: [0u8; 32],
        old: [0u8; 32],
    }
}

pub fn shape_of(d: Drive) -> Shape
    ensures { result ≡ shape_of d }
{
    Shape {
        n: d.n,
        p: d.p,
        f: d.f,
        version: d.version,
        cipher: d.cipher,
    }
}

pub fn is_changing(state: State) -> bool
    ensures { result ≡ is_changing state }
{
    matches!(state, State::Changing(_))
}

// What the drive's records are held against.
pub fn gauge_of(d: Drive) -> Gauge
    ensures { result ≡ gauge_of d }
{
    Gauge {
        epoch: d.epoch,
        changing: is_changing(d.state),
        counter: d.counter,
    }
}

// The drive under another head: its shape and its salt stay.
pub fn headed(
    d: Drive,
    state: State,
    epoch: u16,
    counter: u64,
    node: [u8; 32],
    present: [u8; 32],
    old: [u8; 32],
) -> Drive
    ensures { result ≡ headed d state epoch counter node present old }
{
    Drive {
        state,
        epoch,
        counter,
        node,
        present,
        old,
        ..d
    }
}

// "an accepted change or mount leaves zeros there"
pub fn kept_old(state: State, old: [u8; 32]) -> [u8; 32]
    ensures { result ≡ kept_old state old }
{
    match state {
        State::Steady => [0u8; 32],
        State::Changing(_) => old,
    }
}

// "5 state (0 steady, 1 changing)"
pub fn state_byte(state: State) -> u8
    ensures { result ≡ state_byte state }
{
    match state {
        State::Steady => 0,
        State::Changing(_) => 1,
    }
}

// Head bytes 0 to 15; `kind` is byte 5, the cipher above the state.
fn numbers_of(version: u16, n: u32, p: u32, f: u32, kind: u16, epoch: u16) -> [u8; 16]
    ensures { result ≡ numbers_of version n p f kind epoch }
{
    let mut out = [0u8; 16];
    words::store(&mut out, 0, 3, 0x54474e);
    words::store(&mut out, 3, 2, u64::from(version));
    words::store(&mut out, 5, 1, u64::from(kind));
    words::store(&mut out, 6, 2, u64::from(epoch));
    words::store(&mut out, 8, 4, u64::from(n));
    words::store(&mut out, 12, 2, u64::from(p));
    words::store(&mut out, 14, 2, u64::from(f));
    out
}

// Head bytes 0 to 71 from what they hold.
fn front_of(numbers: [u8; 16], salt: [u8; 16], counter: u64, check: [u8; 32]) -> [u8; 72]
    ensures { result ≡ front_from numbers salt counter check }
{
    let mut out = [0u8; 72];
    words::copy(&mut out, 0, &numbers);
    words::copy(&mut out, 16, &salt);
    words::store(&mut out, 32, 8, counter);
    words::copy(&mut out, 40, &check);
    out
}

// "old-secret check (zeros when steady)"
pub fn check_in(d: Drive) -> [u8; 32]
    ensures { result ≡ check_in d }
{
    match d.state {
        State::Steady => [0u8; 32],
        State::Changing(_) => keys::check_of(d.old, d.salt, d.epoch),
    }
}

// Head bytes 0 to 71 of the drive.
pub fn front(d: Drive) -> [u8; 72]
    ensures { result ≡ front_in d }
{
    let check = check_in(d);
    let kind = u16::from(state_byte(d.state)) + u16::from(d.cipher);
    let numbers = numbers_of(d.version, d.n, d.p, d.f, kind, d.epoch);
    front_of(numbers, d.salt, d.counter, check)
}

// "the 104 bytes are those the drive makes"
pub fn head(d: Drive) -> [u8; 104]
    ensures { result ≡ head_of d }
{
    let first = front(d);
    let seal = keys::seal_of(d.present, &first, &d.node);
    let mut out = [0u8; 104];
    words::copy(&mut out, 0, &first);
    words::copy(&mut out, 72, &seal);
    out
}

// "Epoch: 1 to 65,535; at least 2 while changing." "That epoch is one below the drive's, or the answer is 1."
pub fn state_fits(state: State, epoch: u16) -> bool
    ensures { result ≡ state_fits state epoch }
{
    match state {
        State::Steady => 1 <= epoch,
        State::Changing(left) => 2 <= epoch && left == epoch - 1,
    }
}

// Test 1 of a drive.
pub fn in_form(d: Drive) -> bool
    ensures { result ≡ in_form d }
{
    layout::in_limits(shape_of(d)) && state_fits(d.state, d.epoch)
}

// Tests 1 and 2: the drive in form, and the volume as long as its shape asks.
pub fn measure(d: Drive, vol: &[u8]) -> Answer
    ensures { result ≡ measure_of d vol.now }
{
    if !in_form(d) {
        return Err(Refusal::Limits);
    }
    if vol.len() != layout::length_of(shape_of(d)) {
        return Err(Refusal::Length);
    }
    Ok(())
}

// Test 7 head, of a volume as long as the drive's shape asks.
fn head_stands(d: Drive, vol: &[u8]) -> bool
    requires { (in_limits (shape_of d) ≡ true) × (length vol.now ≡ length_of (shape_of d)) }
    ensures { result ≡ head_stands d vol.now }
{
    let at = layout::node_at(shape_of(d), 1);
    let end = at + 32;
    words::equal(&vol[0..104], &head(d)) && words::equal(&vol[at..end], &d.node)
}

// "All others start 1, 2, 7 head."
pub fn opening(d: Drive, vol: &[u8]) -> Answer
    ensures { result ≡ opening_of d vol.now }
{
    measure(d, vol)?;
    if head_stands(d, vol) {
        Ok(())
    } else {
        Err(Refusal::Altered(Place::Head))
    }
}
