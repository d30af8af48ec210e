// The counts of a report, in one pass over the records, and the share.
ghost use Rattle.std.specs.Prelude.{◌≡◌};
ghost use Rattle.layout.specs.Shaped.{Shaped};
ghost use Rattle.reports.specs.Counts.{count_of, counts_in, cap_of, exact_of, share_of};

use crate::told::Counts;
use layout::Shape;
use records::Record;

pub fn count_of(r: Record, epoch: u16) -> Counts
    ensures { result ≡ count_of 64 epoch r }
{
    let moved = r.epoch == epoch;
    let flakes = records::count(r.held);
    Counts {
        moved: u32::from(moved),
        flakes,
        done: if moved { flakes } else { 0 },
    }
}

// No shape has more nuggets, so no sum of counts rolls over.
pub fn counts_in(vol: &[u8], s: Shape, epoch: u16) -> Counts
    requires { Shaped s vol.now }
    ensures { result ≡ counts_in s 64 epoch vol.now s.n }
{
    let mut c = Counts::default();
    for i in 0..s.n {
        let one = count_of(records::read(vol, s, i), epoch);
        c.moved += one.moved;
        c.flakes += one.flakes;
        c.done += one.done;
    }
    c
}

// In 64 bits: 2^20 flakes × 10,000 pass 2^32. A shape has a nugget at least; 0 of none is 0.
fn exact_of(n: u32, c: Counts) -> u64
    ensures { result ≡ exact_of n c }
{
    if c.flakes != 0 {
        u64::from(c.done) * 10000 / u64::from(c.flakes)
    } else if n != 0 {
        u64::from(c.moved) * 10000 / u64::from(n)
    } else {
        0
    }
}

// "while any nugget is left the figure is at most 99.99"
fn cap_of(n: u32, c: Counts) -> u32
    ensures { result ≡ cap_of n c }
{
    if c.moved < n { 9999 } else { 10000 }
}

pub fn share_of(n: u32, c: Counts) -> u32
    ensures { result ≡ share_of n c }
{
    u64::from(cap_of(n, c)).min(exact_of(n, c)) as u32
}
