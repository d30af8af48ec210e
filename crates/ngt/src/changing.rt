// The calls that change the drive, for C: each stores the image anew where the drive changed.
ghost use Rattle.std.specs.Prelude.{◌≡◌};
ghost use Rattle.packed.specs.Image.{drive_in};
ghost use Rattle.changes.specs.Write.{writes};
ghost use Rattle.ngt.specs.Calls.{Begun, Swept, Finished, Written, Imported, counter_rose, Discarded, QueuedBy};

use answers::Answer;
use discarding::Freed;
use drive::Drive;

// Begin, with a new secret.
pub fn ngt_begin(
    image: &mut [u8; 144],
    vol: &mut [u8],
    secret: &[u8; 32],
    answer: &mut [u8; 16],
) -> u32
    ensures { Begun (drive_in image.old) vol.old secret.now
        image.old result vol.new image.new answer.new }
{
    let done = rekeying::begin(crate::opened(*image), vol, *secret);
    crate::hand_back(image, answer, done, done.answer.is_ok())
}

// Sweep, of one nugget.
pub fn ngt_sweep(image: &mut [u8; 144], vol: &mut [u8], nugget: u32, answer: &mut [u8; 16]) -> u32
    ensures { Swept (drive_in image.old) vol.old nugget
        image.old result vol.new image.new answer.new }
{
    let done = rekeying::sweep(crate::opened(*image), vol, nugget);
    crate::hand_back(image, answer, done, done.answer.is_ok())
}

// Finish.
pub fn ngt_finish(image: &mut [u8; 144], vol: &mut [u8], answer: &mut [u8; 16]) -> u32
    ensures { Finished (drive_in image.old) vol.old
        image.old result vol.new image.new answer.new }
{
    let done = rekeying::finish(crate::opened(*image), vol);
    crate::hand_back(image, answer, done, done.answer.is_ok())
}

// Whether a write changes the drive: one of no bytes doesn't.
fn writes_by(a: Answer, bytes: &[u8]) -> bool
    ensures { result ≡ writes a bytes.now }
{
    a.is_ok() && 0 < bytes.len()
}

// Write, from an offset on.
pub fn ngt_write(
    image: &mut [u8; 144],
    vol: &mut [u8],
    offset: u64,
    bytes: &[u8],
    answer: &mut [u8; 16],
) -> u32
    ensures { Written (drive_in image.old) vol.old offset bytes.now
        image.old result vol.new image.new answer.new }
{
    let done = writing::write(crate::opened(*image), vol, offset, bytes);
    crate::hand_back(image, answer, done, writes_by(done.answer, bytes))
}

// Import of a whole buffer; an accepted one always changes the drive, since no drive is without contents.
pub fn ngt_import(
    image: &mut [u8; 144],
    vol: &mut [u8],
    key: &[u8; 32],
    tweak: &[u8; 32],
    bytes: &[u8],
    answer: &mut [u8; 16],
) -> u32
    ensures { Imported (drive_in image.old) vol.old key.now tweak.now bytes.now
        image.old result vol.new image.new answer.new }
{
    let done = importing::import(crate::opened(*image), vol, *key, *tweak, bytes);
    crate::hand_back(image, answer, done, done.answer.is_ok())
}

// Whether drives differ: each call that changes one adds to its counter.
fn counter_rose(d: Drive, next: Drive) -> bool
    ensures { result ≡ counter_rose d next }
{
    d.counter != next.counter
}

// Discard, of a flake range of one nugget.
pub fn ngt_discard(
    image: &mut [u8; 144],
    vol: &mut [u8],
    nugget: u32,
    first: u32,
    count: u32,
    answer: &mut [u8; 16],
) -> u32
    ensures { Discarded (drive_in image.old) vol.old nugget first count
        image.old result vol.new image.new answer.new }
{
    let d = crate::opened(*image);
    let freed = Freed {
        nugget,
        first,
        count,
    };
    let done = discarding::discard(d, vol, freed);
    crate::hand_back(image, answer, done, counter_rose(d, done.drive))
}

// A queue of writes, "requests: 16 bytes each, offset and length".
pub fn ngt_queue(
    image: &mut [u8; 144],
    vol: &mut [u8],
    requests: &[u8],
    bytes: &[u8],
    done: &mut [u8; 8],
    answer: &mut [u8; 16],
) -> u32
    ensures { QueuedBy (drive_in image.old) vol.old requests.now bytes.now
        image.old result vol.new image.new done.new answer.new }
{
    let d = crate::opened(*image);
    let queued = queues::queue_images(d, vol, requests, bytes);
    crate::keep(image, counter_rose(d, queued.drive), queued.drive);
    *done = crate::long(queued.outcome.done);
    crate::told(answer, queued.outcome.answer)
}
