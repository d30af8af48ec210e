// A summary beside the tree: for each node what its nuggets count for, built, renewed along a path, and the report from its top.
// It touches `reports` for the counts, `drive` and `tree` for the tests, and `records`, `layout`, `answers` and `words`.
#![tactic(auto)]

ghost use Rattle.std.specs.Prelude.{◌≡◌, ◌+◌, ◌-◌, ◌*◌, ◌<◌, ◌≤◌, length};
ghost use Rattle.std.proofs.lemmas.List.Edits.{sets};
ghost use Rattle.layout.specs.Shape.{leaves};
ghost use Rattle.layout.specs.Shaped.{Shaped};
ghost use Rattle.summaries.specs.Entries.{entry_at, summary_length, entry_bytes, entry_in, rolled, beneath, put_entry, built, renewed};
ghost use Rattle.summaries.specs.Calls.{top_answer, top_report, build_answer, build_summary, renew_answer, renew_summary};

use answers::{Answer, Refusal};
use drive::Drive;
use layout::Shape;
use reports::{Counts, Report};

// "12 × (2L - 1) bytes"
fn length_of(n: u32) -> usize
    requires { n ≤ 16384 }
    ensures { result ≡ summary_length n }
{
    12 * (2 * layout::leaves_of(n) - 1)
}

// Where the entry of node i begins.
fn entry_at(i: u32) -> usize
    requires { 1 ≤ i }
    ensures { result ≡ entry_at i }
{
    12 * ((i - 1) as usize)
}

// The entry of node i.
fn load(sum: &[u8], i: u32) -> Counts
    requires { (1 ≤ i) × (entry_at i + 12 ≤ length sum.now) }
    ensures { result ≡ entry_in sum.now i }
{
    let at = entry_at(i);
    Counts {
        moved: words::load32(sum, at),
        flakes: words::load32(sum, at + 4),
        done: words::load32(sum, at + 8),
    }
}

// The entry of node i becomes c.
fn store(sum: &mut [u8], i: u32, c: Counts)
    requires { (1 ≤ i) × (entry_at i + 12 ≤ length sum.old) }
    ensures { sum.new ≡ sets sum.old (entry_at i) (entry_bytes c) }
{
    let at = entry_at(i);
    words::store32(&mut *sum, at, c.moved);
    words::store32(&mut *sum, at + 4, c.flakes);
    words::store32(&mut *sum, at + 8, c.done);
}

// Over bytes that are no summary a sum may pass 32 bits: it rolls over.
fn rolled(a: Counts, b: Counts) -> Counts
    ensures { result ≡ rolled a b }
{
    Counts {
        moved: a.moved.wrapping_add(b.moved),
        flakes: a.flakes.wrapping_add(b.flakes),
        done: a.done.wrapping_add(b.done),
    }
}

// What the entry of node i has to tell.
fn beneath(vol: &[u8], sum: &[u8], s: Shape, epoch: u16, i: u32) -> Counts
    requires { Shaped s vol.now × (length sum.now ≡ summary_length s.n) × (1 ≤ i) × (i < 2 * leaves s.n) }
    ensures { result ≡ beneath s epoch vol.now sum.now i }
{
    let first = layout::leaves_of(s.n) as u32;
    if i < first {
        rolled(load(sum, 2 * i), load(sum, 2 * i + 1))
    } else if i - first < s.n {
        reports::count_of(records::read(vol, s, i - first), epoch)
    } else {
        Counts::default()
    }
}

// The entry of node i made anew.
fn put(vol: &[u8], sum: &mut [u8], s: Shape, epoch: u16, i: u32)
    requires { Shaped s vol.now × (length sum.old ≡ summary_length s.n) × (1 ≤ i) × (i < 2 * leaves s.n) }
    ensures { sum.new ≡ put_entry s epoch vol.now i sum.old }
{
    let c = beneath(vol, sum, s, epoch, i);
    store(&mut *sum, i, c);
}

// Every entry made anew, from the last to the first.
fn put_all(vol: &[u8], sum: &mut [u8], s: Shape, epoch: u16)
    requires { Shaped s vol.now × (length sum.old ≡ summary_length s.n) }
    ensures { sum.new ≡ built s epoch vol.now sum.old }
{
    for i in (1..2 * (layout::leaves_of(s.n) as u32)).rev() {
        put(vol, &mut *sum, s, epoch, i);
    }
}

// The entry of nugget n's leaf and those above it made anew, from the leaf up.
fn put_path(vol: &[u8], sum: &mut [u8], s: Shape, epoch: u16, n: u32)
    requires { Shaped s vol.now × (length sum.old ≡ summary_length s.n) × (n < s.n) }
    ensures { sum.new ≡ renewed s epoch vol.now n sum.old }
{
    let mut i = (layout::leaves_of(s.n) as u32) + n;
    for _above in 0..layout::height_of(s.n) + 1 {
        put(vol, &mut *sum, s, epoch, i);
        i /= 2;
    }
}

// 1, 2, "2 if the buffer isn't 12 × (2L - 1) bytes, after the volume's own 2; then 7 head".
fn top_answer(d: Drive, vol: &[u8], len: usize) -> Answer
    ensures { result ≡ top_answer d vol.now len }
{
    drive::measure(d, vol)?;
    if len != length_of(d.n) {
        return Err(Refusal::Length);
    }
    drive::opening(d, vol)
}

// "building goes on with 7 whole"
fn build_answer(d: Drive, vol: &[u8], len: usize) -> Answer
    ensures { result ≡ build_answer d vol.now len }
{
    top_answer(d, vol, len)?;
    tree::whole(vol, drive::shape_of(d), drive::gauge_of(d))
}

// "renewing a nugget's path with 8, 7 path"
fn renew_answer(d: Drive, vol: &[u8], len: usize, nugget: u32) -> Answer
    ensures { result ≡ renew_answer d vol.now len nugget }
{
    top_answer(d, vol, len)?;
    if nugget >= d.n {
        return Err(Refusal::PastEnd);
    }
    tree::path(vol, drive::shape_of(d), drive::gauge_of(d), nugget)
}

// The whole summary, whatever the buffer held.
pub fn build(d: Drive, vol: &[u8], sum: &mut [u8]) -> Answer
    ensures { (result ≡ build_answer d vol.now (length sum.old))
        × (sum.new ≡ build_summary d vol.now sum.old) }
{
    build_answer(d, vol, sum.len())?;
    put_all(vol, &mut *sum, drive::shape_of(d), d.epoch);
    Ok(())
}

// One nugget's path, after a change of that nugget.
pub fn renew(d: Drive, vol: &[u8], sum: &mut [u8], nugget: u32) -> Answer
    ensures { (result ≡ renew_answer d vol.now (length sum.old) nugget)
        × (sum.new ≡ renew_summary d vol.now sum.old nugget) }
{
    renew_answer(d, vol, sum.len(), nugget)?;
    put_path(vol, &mut *sum, drive::shape_of(d), d.epoch, nugget);
    Ok(())
}

// "A report from the top entry": no record is read.
pub fn top(d: Drive, vol: &[u8], sum: &[u8]) -> Report
    ensures { result ≡ top_report d vol.now sum.now }
{
    match top_answer(d, vol, sum.len()) {
        Ok(()) => reports::counted(d.n, load(sum, 1)),
        Err(refusal) => reports::refused(refusal),
    }
}
