// Document 02, Item 2: a queue of writes in one call.
// It touches `writing` for each write, `drive` and `answers` for the tests before the first one, and `words` for requests as bytes.
#![tactic(auto)]

ghost use Rattle.std.specs.Prelude.{◌≡◌, ℕ, List, ◌+◌, ◌<◌, ◌≤◌, eqb, length, slice_index_or};
ghost use Rattle.queues.specs.declared.Request.{Request};
ghost use Rattle.queues.specs.Queue.{no_request, lengths_of, queued_at, before_writes, queued_by, writes_from, queue_done, queue_volume};
ghost use Rattle.queues.specs.Images.{request_at, requests_in, uneven, images_done, images_volume};

use answers::{Answer, Refusal};
use drive::Drive;

// "a list of requests, each an offset and a length"
#[derive(Clone, Copy)]
pub struct Request {
    pub offset: u64,
    pub length: u64,
}

// "answers how many were done and that refusal": no Result, since a refusal too says how many were done.
#[derive(Clone, Copy)]
pub struct Outcome {
    pub answer: Answer,
    pub done: u64,
}

// What a queue hands back.
#[derive(Clone, Copy)]
pub struct Queued {
    pub outcome: Outcome,
    pub drive: Drive,
}

fn queued_at(answer: Answer, done: u64, drive: Drive) -> Queued
    ensures { result ≡ queued_at answer done drive }
{
    let outcome = Outcome { answer, done };
    Queued { outcome, drive }
}

// A list of requests, whether it is lent as such or as their images.
trait Requests {
    ghost listed: { Self → List Request };

    fn count(&self) -> usize
        ensures { result ≡ length (listed self.now) };

    fn request(&self, i: usize) -> Request
        requires { i < length (listed self.now) }
        ensures { result ≡ slice_index_or (listed self.now) i no_request };
}

impl Requests for &[Request] {
    ghost listed = { λ x. x.now };

    fn count(&self) -> usize {
        self.len()
    }

    fn request(&self, i: usize) -> Request {
        self[i]
    }
}

// The request whose 16 bytes stand at `at`.
fn request_at(images: &[u8], at: usize) -> Request
    requires { at + 16 ≤ length images.now }
    ensures { result ≡ request_at images.now at }
{
    Request {
        offset: words::load(images, at, 8),
        length: words::load(images, at + 8, 8),
    }
}

// "16 bytes each, offset and length"
#[derive(Clone, Copy)]
struct Images<'a> {
    bytes: &'a [u8],
}

impl Requests for Images<'_> {
    ghost listed = { λ x. requests_in x.bytes.now };

    fn count(&self) -> usize {
        self.bytes.len() / 16
    }

    fn request(&self, i: usize) -> Request {
        request_at(self.bytes, i * 16)
    }
}

// Whether the lengths add up to so many bytes: each is taken off what is left, so that no sum is made that could roll over.
fn add_up<R: Requests>(rs: &R, len: usize) -> bool
    ensures { result ≡ eqb (lengths_of (R.listed rs.now)) len }
{
    let mut left = len as u64;
    for i in 0..rs.count() {
        let q = rs.request(i);
        if left < q.length {
            return false;
        }
        left -= q.length;
    }
    left == 0
}

// "8 comes after 1 and 2, before the first write, if the lengths don't add up to the buffer"
fn admit<R: Requests>(d: Drive, vol: &[u8], rs: &R, bytes: &[u8]) -> Answer
    ensures { result ≡ before_writes d vol.now (R.listed rs.now) bytes.now }
{
    drive::measure(d, vol)?;
    if !add_up(rs, bytes.len()) {
        return Err(Refusal::PastEnd);
    }
    Ok(())
}

// "as the writes one after another, stopping at the first refusal": each request is a whole write, of the next part of the buffer.
fn write_all<R: Requests>(d: Drive, vol: &mut [u8], rs: &R, bytes: &[u8]) -> Queued
    requires { lengths_of (R.listed rs.now) ≤ length bytes.now }
    ensures { (result ≡ queued_by (writes_from d vol.old (R.listed rs.now) bytes.now))
        × (vol.new ≡ (writes_from d vol.old (R.listed rs.now) bytes.now).vol) }
{
    let mut last = d;
    let mut at = 0;
    for i in 0..rs.count() {
        let q = rs.request(i);
        let end = at + q.length as usize;
        let one = writing::write(last, &mut *vol, q.offset, &bytes[at..end]);
        if one.answer.is_err() {
            return queued_at(one.answer, i as u64, last);
        }
        last = one.drive;
        at = end;
    }
    queued_at(Ok(()), rs.count() as u64, last)
}

fn queue_of<R: Requests>(d: Drive, vol: &mut [u8], rs: &R, bytes: &[u8]) -> Queued
    ensures { (result ≡ queue_done d vol.old (R.listed rs.now) bytes.now)
        × (vol.new ≡ queue_volume d vol.old (R.listed rs.now) bytes.now) }
{
    let answer = admit(d, vol, rs, bytes);
    if answer.is_err() {
        return queued_at(answer, 0, d);
    }
    write_all(d, vol, rs, bytes)
}

// "The call does as the writes one after another, stopping at the first refusal, and answers how many were done and that refusal."
pub fn queue(d: Drive, vol: &mut [u8], rs: &[Request], bytes: &[u8]) -> Queued
    ensures { (result ≡ queue_done d vol.old rs.now bytes.now)
        × (vol.new ≡ queue_volume d vol.old rs.now bytes.now) }
{
    queue_of(d, vol, &rs, bytes)
}

// "A list length that is no multiple of 16 is answered 8 (after 1, 2) with 0 done."
fn uneven(d: Drive, vol: &[u8]) -> Answer
    ensures { result ≡ uneven d vol.now }
{
    drive::measure(d, vol)?;
    Err(Refusal::PastEnd)
}

// The same of requests as bytes, for hosts in C: "16 bytes each, offset and length".
pub fn queue_images(d: Drive, vol: &mut [u8], images: &[u8], bytes: &[u8]) -> Queued
    ensures { (result ≡ images_done d vol.old images.now bytes.now)
        × (vol.new ≡ images_volume d vol.old images.now bytes.now) }
{
    if images.len() % 16 != 0 {
        return queued_at(uneven(d, vol), 0, d);
    }
    queue_of(d, vol, &Images { bytes: images }, bytes)
}
