// What the head's bytes say, and whether they are in form.
ghost use Rattle.std.specs.Prelude.{◌≡◌, ◌-◌, ◌≤◌, length};
ghost use Rattle.opening.specs.Mount.{mark_fits, head_fits, state_byte_in, cipher_in, shape_in, state_in, epoch_in, form_of};

use answers::{Answer, Refusal};
use drive::State;
use layout::Shape;

// Test 3: "mark or version differs"
fn has_mark(vol: &[u8]) -> bool
    requires { 104 ≤ length vol.now }
    ensures { result ≡ mark_fits vol.now }
{
    words::equal(&vol[0..3], b"NGT") && layout::known_version(words::load(vol, 3, 2) as u16)
}

// Byte 5: "state (0 steady, 1 changing)", and "above the state" the cipher.
fn state_byte_in(vol: &[u8]) -> u8
    requires { 104 ≤ length vol.now }
    ensures { result ≡ state_byte_in vol.now }
{
    vol[5] % 16
}

fn cipher_in(vol: &[u8]) -> u8
    requires { 104 ≤ length vol.now }
    ensures { result ≡ cipher_in vol.now }
{
    vol[5] / 16 * 16
}

pub fn shape_in(vol: &[u8]) -> Shape
    requires { 104 ≤ length vol.now }
    ensures { result ≡ shape_in vol.now }
{
    Shape {
        n: words::load32(vol, 8),
        p: words::load(vol, 12, 2) as u32,
        f: words::load(vol, 14, 2) as u32,
        version: words::load(vol, 3, 2) as u16,
        cipher: cipher_in(vol),
    }
}

pub fn epoch_in(vol: &[u8]) -> u16
    requires { 104 ≤ length vol.now }
    ensures { result ≡ epoch_in vol.now }
{
    words::load(vol, 6, 2) as u16
}

// "changing carries the epoch being left"
pub fn state_in(vol: &[u8]) -> State
    requires { 104 ≤ length vol.now }
    ensures { result ≡ state_in vol.now }
{
    if state_byte_in(vol) == 0 {
        State::Steady
    } else {
        State::Changing(epoch_in(vol).saturating_sub(1))
    }
}

// Test 1: "N, P, F, state or epoch out of limits"
fn head_fits(vol: &[u8]) -> bool
    requires { 104 ≤ length vol.now }
    ensures { result ≡ head_fits vol.now }
{
    layout::in_limits(shape_in(vol))
        && state_byte_in(vol) <= 1
        && drive::state_fits(state_in(vol), epoch_in(vol))
}

// "2 (under 104 bytes), 3, 1, 2"
pub fn form(vol: &[u8]) -> Answer
    ensures { result ≡ form_of vol.now }
{
    if vol.len() < 104 {
        return Err(Refusal::Length);
    }
    if !has_mark(vol) {
        return Err(Refusal::Mark);
    }
    if !head_fits(vol) {
        return Err(Refusal::Limits);
    }
    if vol.len() != layout::length_of(shape_in(vol)) {
        return Err(Refusal::Length);
    }
    Ok(())
}
