// The calls on a drive that is lent: "The open drive is one record that the calls change where it stands".
// It touches `opening`, `reading`, `reports`, `writing`, `rekeying`, `discarding`, `moving` and `queues`, whose by-value calls the functions here wrap, and `drive`, `layout` and `answers`.
#![tactic(auto)]

ghost use Rattle.std.specs.Prelude.{◌≡◌, length};
ghost use Rattle.opening.specs.Format.{format_done, format_volume};
ghost use Rattle.opening.specs.Mount.{mount_done};
ghost use Rattle.reading.specs.Read.{read_answer, read_buffer};
ghost use Rattle.reports.specs.Report.{report_of};
ghost use Rattle.reports.specs.Stored.{stored_answer, stored_flake, stored_at, onward};
ghost use Rattle.changes.specs.Write.{write_done, write_volume};
ghost use Rattle.changes.specs.Rekey.{begin_done, begin_volume, sweep_done, sweep_volume, finish_done, finish_volume};
ghost use Rattle.handing.specs.Handing.{export_answer, export_buffer, import_done, import_volume};
ghost use Rattle.changes.specs.Discard.{discard_done, discard_volume};
ghost use Rattle.queues.specs.Queue.{queue_done, queue_volume};
ghost use Rattle.moving.specs.Move.{up_done, up_second, down_done, down_second};

use answers::Answer;
use discarding::Freed;
use drive::Drive;
use layout::Shape;
use queues::{Outcome, Request};
use reports::Report;

// "Format takes N, P, F, salt, secret and the outside counter."
pub fn format_at(
    d: &mut Drive,
    vol: &mut [u8],
    s: Shape,
    salt: [u8; 16],
    secret: [u8; 32],
    outside: u64,
) -> Answer
    ensures { (result ≡ (format_done s salt secret outside vol.old).answer)
        × ((d.new ≡ (format_done s salt secret outside vol.old).drive)
        × (vol.new ≡ format_volume s salt secret outside vol.old)) }
{
    let r = opening::format(vol, s, salt, secret, outside);
    *d = r.drive;
    r.answer
}

// "Mount takes both secrets (the old one unused when steady) and the outside counter."
pub fn mount_at(d: &mut Drive, vol: &[u8], present: [u8; 32], old: [u8; 32], outside: u64) -> Answer
    ensures { (result ≡ (mount_done vol.now present old outside).answer)
        × (d.new ≡ (mount_done vol.now present old outside).drive) }
{
    let r = opening::mount(vol, present, old, outside);
    *d = r.drive;
    r.answer
}

// "Read fills the buffer."
pub fn read_at(d: &Drive, vol: &[u8], offset: u64, buf: &mut [u8]) -> Answer
    ensures { (result ≡ read_answer d.now vol.now offset (length buf.old))
        × (buf.new ≡ read_buffer d.now vol.now offset buf.old) }
{
    reading::read(*d, vol, offset, buf)
}

// "Report gives N, nuggets moved [..], left, flakes present, and share"
pub fn report_at(d: &Drive, vol: &[u8]) -> Report
    ensures { result ≡ report_of d.now vol.now }
{
    reports::report(*d, vol)
}

// What a stored flake answers: 1, 2, 8.
pub fn stored_flake_answer_at(d: &Drive, vol: &[u8], nugget: u32, flake: u32) -> Answer
    ensures { result ≡ stored_answer d.now vol.now nugget flake }
{
    reports::stored_flake_answer(*d, vol, nugget, flake)
}

// "shows a backup tool the stored bytes as that part of the volume itself, no copy"
pub fn stored_flake_at<'v>(d: &Drive, vol: &'v [u8], nugget: u32, flake: u32) -> &'v [u8]
    ensures { (result.now ≡ stored_flake d.now vol.now nugget flake)
        × (result.ref_ptr ≡ onward vol.entry.ref_ptr (stored_at d.now vol.now nugget flake)) }
{
    reports::stored_flake(*d, vol, nugget, flake)
}

// Document 01's write.
pub fn write_at(d: &mut Drive, vol: &mut [u8], offset: u64, bytes: &[u8]) -> Answer
    ensures { (result ≡ (write_done d.entry.now vol.old offset bytes.now).answer)
        × ((d.new ≡ (write_done d.entry.now vol.old offset bytes.now).drive)
        × (vol.new ≡ write_volume d.entry.now vol.old offset bytes.now)) }
{
    let r = writing::write(*d, vol, offset, bytes);
    *d = r.drive;
    r.answer
}

// Document 02, Item 12: "Write the contents into a second buffer as XTS-AES"; `one` is the key for sectors, `two` the key for tweaks.
pub fn export_at(d: &Drive, vol: &[u8], one: [u8; 32], two: [u8; 32], out: &mut [u8]) -> Answer
    ensures { (result ≡ export_answer d.now vol.now one two (length out.old))
        × (out.new ≡ export_buffer d.now vol.now one two out.old) }
{
    handing::export(*d, vol, one, two, out)
}

// "Import decrypts such a buffer and writes it whole at offset 0".
pub fn import_at(
    d: &mut Drive,
    vol: &mut [u8],
    one: [u8; 32],
    two: [u8; 32],
    bytes: &[u8],
) -> Answer
    ensures { (result ≡ (import_done d.entry.now vol.old one two bytes.now).answer)
        × ((d.new ≡ (import_done d.entry.now vol.old one two bytes.now).drive)
        × (vol.new ≡ import_volume d.entry.now vol.old one two bytes.now)) }
{
    let r = importing::import(*d, vol, one, two, bytes);
    *d = r.drive;
    r.answer
}

// "Begin takes a new secret: state changing, epoch plus 1, the old secret kept."
pub fn begin_at(d: &mut Drive, vol: &mut [u8], secret: [u8; 32]) -> Answer
    ensures { (result ≡ (begin_done d.entry.now vol.old secret).answer)
        × ((d.new ≡ (begin_done d.entry.now vol.old secret).drive)
        × (vol.new ≡ begin_volume d.entry.now vol.old secret)) }
{
    let r = rekeying::begin(*d, vol, secret);
    *d = r.drive;
    r.answer
}

// "Sweep takes a nugget and rekeys it with T empty."
pub fn sweep_at(d: &mut Drive, vol: &mut [u8], nugget: u32) -> Answer
    ensures { (result ≡ (sweep_done d.entry.now vol.old nugget).answer)
        × ((d.new ≡ (sweep_done d.entry.now vol.old nugget).drive)
        × (vol.new ≡ sweep_volume d.entry.now vol.old nugget)) }
{
    let r = rekeying::sweep(*d, vol, nugget);
    *d = r.drive;
    r.answer
}

// "Finish makes the state steady and zeroes the check."
pub fn finish_at(d: &mut Drive, vol: &mut [u8]) -> Answer
    ensures { (result ≡ (finish_done d.entry.now vol.old).answer)
        × ((d.new ≡ (finish_done d.entry.now vol.old).drive)
        × (vol.new ≡ finish_volume d.entry.now vol.old)) }
{
    let r = rekeying::finish(*d, vol);
    *d = r.drive;
    r.answer
}

// "Discard takes a flake range of one nugget and clears held bits only"
pub fn discard_at(d: &mut Drive, vol: &mut [u8], freed: Freed) -> Answer
    ensures { (result ≡ (discard_done d.entry.now vol.old freed.nugget freed.first freed.count).answer)
        × ((d.new ≡ (discard_done d.entry.now vol.old freed.nugget freed.first freed.count).drive)
        × (vol.new ≡ discard_volume d.entry.now vol.old freed.nugget freed.first freed.count)) }
{
    let r = discarding::discard(*d, vol, freed);
    *d = r.drive;
    r.answer
}

// "a list of requests, each an offset and a length, with the bytes joined in one buffer"
pub fn queue_at(d: &mut Drive, vol: &mut [u8], rs: &[Request], bytes: &[u8]) -> Outcome
    ensures { (result ≡ (queue_done d.entry.now vol.old rs.now bytes.now).outcome)
        × ((d.new ≡ (queue_done d.entry.now vol.old rs.now bytes.now).drive)
        × (vol.new ≡ queue_volume d.entry.now vol.old rs.now bytes.now)) }
{
    let r = queues::queue(*d, vol, rs, bytes);
    *d = r.drive;
    r.outcome
}

// Document 02, Item 6: "Moving up copies a version 1 volume into a second lent buffer as version 2": the drive becomes the second buffer's.
pub fn up_at(d: &mut Drive, vol: &[u8], second: &mut [u8]) -> Answer
    ensures { (result ≡ (up_done d.entry.now vol.now (length second.old)).answer)
        × ((d.new ≡ (up_done d.entry.now vol.now (length second.old)).drive)
        × (second.new ≡ up_second d.entry.now vol.now second.old)) }
{
    let r = moving::up(*d, vol, second);
    *d = r.drive;
    r.answer
}

// "Moving down is the reverse."
pub fn down_at(d: &mut Drive, vol: &[u8], second: &mut [u8]) -> Answer
    ensures { (result ≡ (down_done d.entry.now vol.now (length second.old)).answer)
        × ((d.new ≡ (down_done d.entry.now vol.now (length second.old)).drive)
        × (second.new ≡ down_second d.entry.now vol.now second.old)) }
{
    let r = moving::down(*d, vol, second);
    *d = r.drive;
    r.answer
}
