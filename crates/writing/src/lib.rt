// Document 01's write: all tests of all nuggets, then flakes and tags, records, leaves and paths, and the head.
// It touches `nuggets` and `records` for the tests, `drive`, `layout` and `answers`, and `laying` for every store.
#![tactic(auto)]

ghost use Rattle.std.specs.Prelude.{◌≡◌, ◌+◌, ◌<◌, ◌≤◌, length};
ghost use Rattle.layout.specs.Spots.{capacity};
ghost use Rattle.layout.specs.Shaped.{Shaped};
ghost use Rattle.records.specs.Rule.{sweep_way};
ghost use Rattle.drive.specs.Drive.{shape_of, counter_top};
ghost use Rattle.changes.specs.Laid.{laid};
ghost use Rattle.changes.specs.Change.{nugget_change, tested_to, pads_for, marked_to, tended_to, settled};
ghost use Rattle.changes.specs.Write.{write_way, write_answer, new_contents, write_work, written_drive, write_done, write_volume};
ghost use Rattle.writing.specs.Room.{Room};

use answers::{Answer, Refusal};
use drive::{Done, Drive};
use laying::{Source, Written};
use layout::Shape;
use records::Way;

// What the write does to nugget n.
pub fn way_at(d: Drive, vol: &[u8], o: usize, len: usize, n: u32) -> Way
    requires { Shaped (shape_of d) vol.now × (0 < len) × (o + len ≤ capacity (shape_of d)) × (n < d.n) }
    ensures { result ≡ write_way d vol.now o len n }
{
    let s = drive::shape_of(d);
    let r = records::read(vol, s, n);
    let t = nuggets::touched(s, o, len, n);
    records::way_of(r, t, d.epoch)
}

// "path; [..] flakes, ascending": "a rekey tests all of J", whatever it touches.
fn test_rekey(d: Drive, vol: &[u8], n: u32) -> Answer
    requires { Shaped (shape_of d) vol.now × (n < d.n) }
    ensures { result ≡ nugget_change d vol.now n sweep_way }
{
    nuggets::test_path(d, vol, n)?;
    let g = nuggets::nugget_of(d, vol, n);
    nuggets::flakes(vol, drive::shape_of(d), g, g.held)
}

// "a write without rekey tests none": the path alone.
fn test_nugget(d: Drive, vol: &[u8], n: u32, way: Way) -> Answer
    requires { Shaped (shape_of d) vol.now × (n < d.n) }
    ensures { result ≡ nugget_change d vol.now n way }
{
    match way {
        Way::Idle => Ok(()),
        Way::Rekey(_) => test_rekey(d, vol, n),
        Way::Add(_) | Way::Clear(_) => nuggets::test_path(d, vol, n),
    }
}

// "ascending, each": the nuggets that the range meets. Those outside it stay as they are and aren't tested.
fn test_span(d: Drive, vol: &[u8], o: usize, len: usize) -> Answer
    requires { Shaped (shape_of d) vol.now × (0 < len) × (o + len ≤ capacity (shape_of d)) }
    ensures { result ≡ tested_to d vol.now (write_way d vol.now o len) d.n }
{
    let span = nuggets::span_of(drive::shape_of(d), o, len);
    for n in span.first..span.end {
        let way = way_at(d, vol, o, len, n);
        test_nugget(d, vol, n, way)?;
    }
    Ok(())
}

// "All others start 1, 2, 7 head"; "Write: 8, 13 unless empty, nuggets."
pub fn admit(d: Drive, vol: &[u8], offset: u64, len: usize) -> Answer
    ensures { result ≡ write_answer d vol.now offset len }
{
    drive::opening(d, vol)?;
    if !nuggets::fits(drive::shape_of(d), offset, len) {
        Err(Refusal::PastEnd)
    } else if len == 0 {
        Ok(())
    } else if d.counter == u64::MAX {
        Err(Refusal::CounterTop)
    } else {
        test_span(d, vol, offset as usize, len)
    }
}

// Flakes and tags of the nuggets that the range meets; each nugget's own still stand as the tests saw them when its turn comes.
fn lay_span<S: Source>(d: Drive, vol: &mut [u8], new: &S)
    requires { Shaped (shape_of d) vol.old × (0 < length (S.bytes new.now)) × S.fits new.now (shape_of d)
        × Room d vol.old (S.offset new.now) (length (S.bytes new.now)) }
    ensures { vol.new ≡ laid (shape_of d) d.salt (new_contents d vol.old (S.offset new.now) (S.bytes new.now))
        (pads_for d vol.old (write_way d vol.old (S.offset new.now) (length (S.bytes new.now)))) vol.old }
{
    let o = new.offset();
    let len = new.len();
    let span = nuggets::span_of(drive::shape_of(d), o, len);
    for n in span.first..span.end {
        let way = way_at(d, vol, o, len, n);
        laying::lay(d, vol, n, way, new);
    }
}

// Their records. This walk, the one before and the next stay three: one over a step handed in has to say what each step asks and leaves.
pub fn mark_span(d: Drive, vol: &mut [u8], o: usize, len: usize)
    requires { Shaped (shape_of d) vol.old × (0 < len) × (o + len ≤ capacity (shape_of d)) × Room d vol.old o len }
    ensures { vol.new ≡ marked_to (shape_of d) d.epoch (write_way d vol.old o len) vol.old d.n vol.old }
{
    let span = nuggets::span_of(drive::shape_of(d), o, len);
    for n in span.first..span.end {
        let way = way_at(d, vol, o, len, n);
        laying::mark(d, vol, n, way);
    }
}

// Their leaves and paths. The records are marked by now and may give another way; which nuggets are idle doesn't rest on them.
pub fn tend_span(d: Drive, vol: &mut [u8], o: usize, len: usize)
    requires { Shaped (shape_of d) vol.old × (0 < len) × (o + len ≤ capacity (shape_of d)) }
    ensures { vol.new ≡ tended_to (shape_of d) (write_way d vol.old o len) d.n vol.old }
{
    let s = drive::shape_of(d);
    let span = nuggets::span_of(s, o, len);
    for n in span.first..span.end {
        let way = way_at(d, vol, o, len, n);
        laying::tend(vol, s, n, way);
    }
}

// All stores, once all tests are passed; an import's bytes are stored so too.
pub fn store<S: Source>(d: Drive, vol: &mut [u8], new: &S) -> Drive
    requires { Shaped (shape_of d) vol.old × (0 < length (S.bytes new.now)) × S.fits new.now (shape_of d)
        × Room d vol.old (S.offset new.now) (length (S.bytes new.now)) × (d.counter < counter_top) }
    ensures { (result ≡ written_drive d vol.old (S.offset new.now) (S.bytes new.now))
        × (vol.new ≡ settled (written_drive d vol.old (S.offset new.now) (S.bytes new.now))
        (write_work d vol.old (S.offset new.now) (S.bytes new.now))) }
{
    let o = new.offset();
    let len = new.len();
    lay_span(d, vol, new);
    mark_span(d, vol, o, len);
    tend_span(d, vol, o, len);
    laying::advance(d, vol)
}

// "A refusal stores nothing and returns the drive as given"; an empty write too.
pub fn write(d: Drive, vol: &mut [u8], offset: u64, bytes: &[u8]) -> Done
    ensures { (result ≡ write_done d vol.old offset bytes.now)
        × (vol.new ≡ write_volume d vol.old offset bytes.now) }
{
    let answer = admit(d, vol, offset, bytes.len());
    let drive = if answer.is_ok() && !bytes.is_empty() {
        let offset = offset as usize;
        store(d, vol, &Written { offset, bytes })
    } else {
        d
    };
    Done { answer, drive }
}
