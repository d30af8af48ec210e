// Document 01's read: all tests over all nuggets, then the contents laid into the reader's buffer.
// It touches `nuggets` for the tests and contents of each nugget, and `drive`, `layout` and `answers`; it changes no volume.
#![tactic(auto)]

ghost use Rattle.std.specs.Prelude.{◌≡◌, ◌+◌, ◌-◌, ◌*◌, ◌<◌, ◌≤◌, length};
ghost use Rattle.base.specs.Lists.{tab};
ghost use Rattle.layout.specs.Spots.{capacity};
ghost use Rattle.drive.specs.Drive.{shape_of};
ghost use Rattle.nuggets.specs.Nugget.{byte_of};
ghost use Rattle.reading.specs.Read.{nuggets_up, nuggets_of, read_answer, read_buffer, byte_in};
ghost use Rattle.layout.specs.Shaped.{Shaped};

use answers::{Answer, Refusal};
use drive::Drive;
use layout::Shape;
use nuggets::Nugget;

// "ascending, each: path; [..] flakes": the nuggets from the first up to the end.
fn test_span(d: Drive, vol: &[u8], o: usize, len: usize, first: u32, end: u32) -> Answer
    requires { Shaped (shape_of d) vol.now × (0 < len) × (o + len ≤ capacity (shape_of d)) × (end ≤ d.n) }
    ensures { result ≡ nuggets_up d vol.now o len (end - first) first }
{
    for n in first..end {
        let t = nuggets::touched(drive::shape_of(d), o, len, n);
        nuggets::test_read(d, vol, n, t)?;
    }
    Ok(())
}

// The tests of every nugget that the range meets; a range of no bytes meets none.
fn test_nuggets(d: Drive, vol: &[u8], o: usize, len: usize) -> Answer
    requires { Shaped (shape_of d) vol.now × (o + len ≤ capacity (shape_of d)) }
    ensures { result ≡ nuggets_of d vol.now o len }
{
    if len == 0 {
        return Ok(());
    }
    let span = nuggets::span_of(drive::shape_of(d), o, len);
    test_span(d, vol, o, len, span.first, span.end)
}

// "All others start 1, 2, 7 head"; "Then read: 8, nuggets."
fn admit(d: Drive, vol: &[u8], offset: u64, len: usize) -> Answer
    ensures { result ≡ read_answer d vol.now offset len }
{
    drive::opening(d, vol)?;
    if !nuggets::fits(drive::shape_of(d), offset, len) {
        return Err(Refusal::PastEnd);
    }
    test_nuggets(d, vol, offset as usize, len)
}

// The contents of one nugget from its byte `from` on, flake by flake.
fn fill_nugget(vol: &[u8], s: Shape, g: Nugget, from: usize, buf: &mut [u8])
    requires { Shaped s vol.now × (g.lock.number < s.n) × (from + length buf.old ≤ s.p * s.f) }
    ensures { buf.new ≡ tab (length buf.old) (λ i. byte_in s vol.now g (from + i)) }
{
    let size = s.f as usize;
    let end = from + buf.len();
    for f in from / size..end.div_ceil(size) {
        let start = from.max(f * size);
        let stop = end.min(f * size + size);
        nuggets::piece(
            vol,
            s,
            g,
            f as u32,
            start - f * size,
            &mut buf[start - from..stop - from],
        );
    }
}

// The contents from offset o on, nugget by nugget; each nugget's key is made once.
// One walk for both would take a closure, whose contract is longer than either loop.
fn fill(d: Drive, vol: &[u8], o: usize, buf: &mut [u8])
    requires { Shaped (shape_of d) vol.now × (o + length buf.old ≤ capacity (shape_of d)) }
    ensures { buf.new ≡ tab (length buf.old) (λ i. byte_of d vol.now (o + i)) }
{
    // The walk would take one turn inside a nugget, and make its key for nothing.
    if buf.is_empty() {
        return;
    }
    let s = drive::shape_of(d);
    let whole = d.p as usize * d.f as usize;
    let end = o + buf.len();
    for n in o / whole..end.div_ceil(whole) {
        let start = o.max(n * whole);
        let stop = end.min(n * whole + whole);
        let g = nuggets::nugget_of(d, vol, n as u32);
        fill_nugget(vol, s, g, start - n * whole, &mut buf[start - o..stop - o]);
    }
}

// "Read fills the buffer." All tests come before its first byte is stored, and a refusal stores nothing.
pub fn read(d: Drive, vol: &[u8], offset: u64, buf: &mut [u8]) -> Answer
    ensures { (result ≡ read_answer d vol.now offset (length buf.old))
        × (buf.new ≡ read_buffer d vol.now offset buf.old) }
{
    let answer = admit(d, vol, offset, buf.len());
    if answer.is_ok() {
        fill(d, vol, offset as usize, buf);
    }
    answer
}
