// The calls that change the drive.
ghost use Rattle.packed.specs.Image.{drive_in};
ghost use Rattle.ngt.specs.Calls.{Begun, Swept, Finished, Written, Imported, Discarded, QueuedBy};

// Begin, with a new secret.
#[unsafe(no_mangle)]
pub extern "C" fn ngt_begin(
    image: &mut [u8; 144],
    vol: &mut [u8],
    secret: &[u8; 32],
    answer: &mut [u8; 16],
) -> u32
    ensures { Begun (drive_in image.old) vol.old secret.now
        image.old result vol.new image.new answer.new }
{
    ngt::changing::ngt_begin(image, vol, secret, answer)
}

// Sweep, of one nugget.
#[unsafe(no_mangle)]
pub extern "C" fn ngt_sweep(
    image: &mut [u8; 144],
    vol: &mut [u8],
    nugget: u32,
    answer: &mut [u8; 16],
) -> u32
    ensures { Swept (drive_in image.old) vol.old nugget
        image.old result vol.new image.new answer.new }
{
    ngt::changing::ngt_sweep(image, vol, nugget, answer)
}

// Finish.
#[unsafe(no_mangle)]
pub extern "C" fn ngt_finish(image: &mut [u8; 144], vol: &mut [u8], answer: &mut [u8; 16]) -> u32
    ensures { Finished (drive_in image.old) vol.old
        image.old result vol.new image.new answer.new }
{
    ngt::changing::ngt_finish(image, vol, answer)
}

// Write, from an offset on.
#[unsafe(no_mangle)]
pub extern "C" fn ngt_write(
    image: &mut [u8; 144],
    vol: &mut [u8],
    offset: u64,
    bytes: &[u8],
    answer: &mut [u8; 16],
) -> u32
    ensures { Written (drive_in image.old) vol.old offset bytes.now
        image.old result vol.new image.new answer.new }
{
    ngt::changing::ngt_write(image, vol, offset, bytes, answer)
}

// Import of a whole buffer; an accepted one always changes the drive, since no drive is without contents.
#[unsafe(no_mangle)]
pub extern "C" fn ngt_import(
    image: &mut [u8; 144],
    vol: &mut [u8],
    key: &[u8; 32],
    tweak: &[u8; 32],
    bytes: &[u8],
    answer: &mut [u8; 16],
) -> u32
    ensures { Imported (drive_in image.old) vol.old key.now tweak.now bytes.now
        image.old result vol.new image.new answer.new }
{
    ngt::changing::ngt_import(image, vol, key, tweak, bytes, answer)
}

// Discard, of a flake range of one nugget.
#[unsafe(no_mangle)]
pub extern "C" fn ngt_discard(
    image: &mut [u8; 144],
    vol: &mut [u8],
    nugget: u32,
    first: u32,
    count: u32,
    answer: &mut [u8; 16],
) -> u32
    ensures { Discarded (drive_in image.old) vol.old nugget first count
        image.old result vol.new image.new answer.new }
{
    ngt::changing::ngt_discard(image, vol, nugget, first, count, answer)
}

// A queue of writes, "requests: 16 bytes each, offset and length".
#[unsafe(no_mangle)]
pub extern "C" fn ngt_queue(
    image: &mut [u8; 144],
    vol: &mut [u8],
    requests: &[u8],
    bytes: &[u8],
    done: &mut [u8; 8],
    answer: &mut [u8; 16],
) -> u32
    ensures { QueuedBy (drive_in image.old) vol.old requests.now bytes.now
        image.old result vol.new image.new done.new answer.new }
{
    ngt::changing::ngt_queue(image, vol, requests, bytes, done, answer)
}
