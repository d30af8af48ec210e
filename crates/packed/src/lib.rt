// The drive as 144 bytes, for the C interface.
// It touches `drive` and `words`.
#![tactic(auto)]

ghost use Rattle.std.specs.Prelude.{◌≡◌, ◌≤◌, length};
ghost use Rattle.base.specs.Lists.{part};
ghost use Rattle.words.specs.Le.{num};
ghost use Rattle.packed.specs.Image.{epoch_left, numbers_image, front_image, whole_image, drive_image, image_state, drive_in};

use drive::{Drive, State};

// 16-17: the epoch being left.
fn epoch_left(state: State) -> u16
    ensures { result ≡ epoch_left state }
{
    match state {
        State::Steady => 0,
        State::Changing(left) => left,
    }
}

// Bytes 0 to 23.
fn numbers_image(
    n: u32,
    p: u32,
    f: u32,
    state: u8,
    cipher: u8,
    epoch: u16,
    left: u16,
    version: u16,
) -> [u8; 24]
    ensures { result ≡ numbers_image n p f state cipher epoch left version }
{
    let mut out = [0u8; 24];
    words::store(&mut out, 0, 4, u64::from(n));
    words::store(&mut out, 4, 4, u64::from(p));
    words::store(&mut out, 8, 4, u64::from(f));
    words::store(&mut out, 12, 1, u64::from(state));
    words::store(&mut out, 13, 1, u64::from(cipher));
    words::store(&mut out, 14, 2, u64::from(epoch));
    words::store(&mut out, 16, 2, u64::from(left));
    words::store(&mut out, 18, 2, u64::from(version));
    out
}

// Bytes 0 to 47.
fn front_image(numbers: [u8; 24], salt: [u8; 16], counter: u64) -> [u8; 48]
    ensures { result ≡ front_image numbers salt counter }
{
    let mut out = [0u8; 48];
    words::copy(&mut out, 0, &numbers);
    words::copy(&mut out, 24, &salt);
    words::store(&mut out, 40, 8, counter);
    out
}

fn whole_image(front: [u8; 48], node: [u8; 32], present: [u8; 32], old: [u8; 32]) -> [u8; 144]
    ensures { result ≡ whole_image front node present old }
{
    let mut out = [0u8; 144];
    words::copy(&mut out, 0, &front);
    words::copy(&mut out, 48, &node);
    words::copy(&mut out, 80, &present);
    words::copy(&mut out, 112, &old);
    out
}

// The drive's image.
pub fn pack(d: Drive) -> [u8; 144]
    ensures { result ≡ drive_image d }
{
    let numbers = numbers_image(
        d.n,
        d.p,
        d.f,
        drive::state_byte(d.state),
        d.cipher,
        d.epoch,
        epoch_left(d.state),
        d.version,
    );
    let front = front_image(numbers, d.salt, d.counter);
    whole_image(front, d.node, d.present, d.old)
}

fn state_in(image: &[u8]) -> State
    requires { 144 ≤ length image.now }
    ensures { result ≡ image_state (num (part 12 1 image.now)) (num (part 16 2 image.now)) }
{
    if words::load(image, 12, 1) == 0 {
        State::Steady
    } else {
        State::Changing(words::load(image, 16, 2) as u16)
    }
}

// One whose byte 12 is neither 0 nor 1 counts as the blank drive, which every call answers 1.
fn drive_in(image: &[u8]) -> Drive
    requires { 144 ≤ length image.now }
    ensures { result ≡ drive_in image.now }
{
    if 1 < words::load(image, 12, 1) {
        return drive::blank();
    }
    Drive {
        n: words::load32(image, 0),
        p: words::load32(image, 4),
        f: words::load32(image, 8),
        version: words::load(image, 18, 2) as u16,
        cipher: words::load(image, 13, 1) as u8,
        salt: words::taken(image, 24),
        state: state_in(image),
        epoch: words::load(image, 14, 2) as u16,
        counter: words::load(image, 40, 8),
        node: words::taken(image, 48),
        present: words::taken(image, 80),
        old: words::taken(image, 112),
    }
}

// The drive of an image.
pub fn unpack(image: &[u8; 144]) -> Drive
    ensures { result ≡ drive_in image.now }
{
    drive_in(image)
}
