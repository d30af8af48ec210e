// A nugget's record, its masks as sets of flakes, and the rule of a write on one nugget.
// It touches `base`, `words`, `codec` and `layout`.
#![tactic(auto)]

ghost use Rattle.std.specs.Prelude.{◌≡◌, ◌+◌, ◌<◌, ◌≤◌, ◌^◌, length};
ghost use Rattle.std.proofs.lemmas.List.Edits.{sets};
ghost use Rattle.layout.specs.Shape.{width_of};
ghost use Rattle.layout.specs.Parts.{record_at};
ghost use Rattle.layout.specs.Shaped.{Shaped};
ghost use Rattle.records.specs.Journal.{bit, union, without, share_none, lies_in, flakes_from, flake_range, all_flakes, flake_count};
ghost use Rattle.records.specs.Record.{record_bytes, record_in, record_of, none_from, epoch_fits, not_above, well_formed};
ghost use Rattle.records.specs.Rule.{way_of, rekeys, enciphered, turned, CanRise};

use layout::Shape;

#[derive(Clone, Copy)]
pub struct Record {
    pub keycount: u64,
    pub spent: u64,
    pub held: u64,
    pub epoch: u16,
}

// What a record is held against: the head's epoch, whether the secret is being changed, and the head's counter.
#[derive(Clone, Copy)]
pub struct Gauge {
    pub epoch: u16,
    pub changing: bool,
    pub counter: u64,
}

// What a change does to one nugget: nothing, add the touched flakes, rekey it with them, or clear held bits.
#[derive(Clone, Copy)]
pub enum Way {
    Idle,
    Add(u64),
    Rekey(u64),
    Clear(u64),
}

// Record n.
pub fn read(vol: &[u8], s: Shape, n: u32) -> Record
    requires { Shaped s vol.now × (n < s.n) }
    ensures { result ≡ record_of s vol.now n }
{
    read_at(vol, s, layout::record_at(s, n))
}

// Record n becomes r.
pub fn store(vol: &mut [u8], s: Shape, n: u32, r: Record)
    requires { Shaped s vol.old × (n < s.n) }
    ensures { vol.new ≡ sets vol.old (record_at s n) (record_bytes s r) }
{
    store_at(&mut *vol, s, layout::record_at(s, n), r)
}

// The record at `at`. The held mask is counted from the end: in version 1 its place is the spent one's.
fn read_at(vol: &[u8], s: Shape, at: usize) -> Record
    requires { at + width_of s ≤ length vol.now }
    ensures { result ≡ record_in s at vol.now }
{
    let end = at + layout::width_of(s);
    Record {
        keycount: words::load(vol, at, 8),
        spent: words::load(vol, at + 8, 8),
        held: words::load(vol, end - 10, 8),
        epoch: words::load(vol, end - 2, 2) as u16,
    }
}

// The record's bytes laid at `at`, each once. They are made in scratch, where version 1 has one place for both masks.
fn store_at(vol: &mut [u8], s: Shape, at: usize, r: Record)
    requires { at + width_of s ≤ length vol.old }
    ensures { vol.new ≡ sets vol.old at (record_bytes s r) }
{
    let width = layout::width_of(s);
    let mut made = [0u8; 26];
    words::store(&mut made, 0, 8, r.keycount);
    words::store(&mut made, 8, 8, r.spent);
    words::store(&mut made, width - 10, 8, r.held);
    words::store(&mut made, width - 2, 2, u64::from(r.epoch));
    words::copy(&mut *vol, at, &made[0..width]);
}

// Whether flake f is in the journal. No shift reaches 64, so a flake past 63 has its own answer.
pub fn has(journal: u64, f: u32) -> bool
    ensures { result ≡ bit journal f }
{
    f < 64 && (journal >> f) % 2 == 1
}

// "J with T"
pub fn join(journal: u64, touched: u64) -> u64
    ensures { result ≡ union journal touched }
{
    journal | touched
}

// The first set without the flakes of the second.
fn leave(held: u64, cleared: u64) -> u64
    ensures { result ≡ without held cleared }
{
    held ^ (held & cleared)
}

// "J and T share none"
pub fn share_none(journal: u64, touched: u64) -> bool
    ensures { result ≡ share_none journal touched }
{
    journal & touched == 0
}

// All flakes below p. 64 of them fill the word, which no shift makes.
pub fn all(p: u32) -> u64
    ensures { result ≡ all_flakes p }
{
    if p < 64 {
        (1u64 << p) - 1
    } else {
        0xffff_ffff_ffff_ffff
    }
}

// The flakes from the first to the last: those up to the last without those before the first.
pub fn range(first: u32, last: u32) -> u64
    ensures { result ≡ flakes_from first last }
{
    if last < first {
        return 0;
    }
    if last < 64 {
        all(last + 1) - all(first)
    } else {
        all(64) - all(first)
    }
}

// "a flake range", of flakes that there may be.
pub fn range_of(first: u32, count: u32) -> u64
    requires { first + count ≤ 64 }
    ensures { result ≡ flake_range first count }
{
    if count == 0 {
        return 0;
    }
    range(first, first + count - 1)
}

// "counts of ones of each journal give flakes present and retired"
pub fn count(journal: u64) -> u32
    ensures { result ≡ flake_count 64 journal }
{
    journal.count_ones()
}

// "no bit at or above P is set": 64 flakes and more leave no bit to test.
fn none_from(journal: u64, p: u32) -> bool
    ensures { result ≡ none_from p journal }
{
    if p < 64 { journal >> p == 0 } else { true }
}

// "its epoch is the head's, or, while changing, the head's or one less"
fn epoch_fits(gauge: Gauge, own: u16) -> bool
    ensures { result ≡ epoch_fits gauge own }
{
    own == gauge.epoch || gauge.changing && own as u32 + 1 == gauge.epoch as u32
}

// "a held bit that isn't spent": there is none
fn lies_in(held: u64, spent: u64) -> bool
    ensures { result ≡ lies_in held spent }
{
    held & spent == held
}

// Document 02, Item 7: "A record whose keycount is above the head's counter is ill formed."
fn not_above(gauge: Gauge, keycount: u64) -> bool
    ensures { result ≡ not_above gauge keycount }
{
    keycount <= gauge.counter
}

// "A record is well formed if no bit at or above P is set and its epoch is .."
pub fn well_formed(r: Record, p: u32, gauge: Gauge) -> bool
    ensures { result ≡ well_formed p gauge r }
{
    none_from(r.spent, p)
        && lies_in(r.held, r.spent)
        && epoch_fits(gauge, r.epoch)
        && not_above(gauge, r.keycount)
}

// The way of a write that touches these flakes.
pub fn way_of(r: Record, touched: u64, epoch: u16) -> Way
    ensures { result ≡ way_of r touched epoch }
{
    if touched == 0 {
        return Way::Idle;
    }
    if share_none(r.spent, touched) {
        if r.epoch == epoch {
            return Way::Add(touched);
        }
    }
    Way::Rekey(touched)
}

// "the nugget is rekeyed"
pub fn is_rekey(way: Way) -> bool
    ensures { result ≡ rekeys way }
{
    matches!(way, Way::Rekey(_))
}

// The flakes that are enciphered.
pub fn enciphers(way: Way, r: Record) -> u64
    ensures { result ≡ enciphered way r }
{
    match way {
        Way::Idle => 0,
        Way::Add(touched) => touched,
        Way::Rekey(touched) => join(r.held, touched),
        Way::Clear(_) => 0,
    }
}

// "keycount plus 1"
fn next(keycount: u64) -> u64
    requires { keycount + 1 < 2 ^ 64 }
    ensures { result ≡ keycount + 1 }
{
    keycount + 1
}

// The record afterwards; the flakes are enciphered under its keycount.
pub fn turn(way: Way, epoch: u16, r: Record) -> Record
    requires { CanRise way r }
    ensures { result ≡ turned way epoch r }
{
    match way {
        Way::Idle => r,
        Way::Add(touched) => Record {
            spent: join(r.spent, touched),
            held: join(r.held, touched),
            ..r
        },
        Way::Rekey(touched) => {
            let flakes = join(r.held, touched);
            Record {
                keycount: next(r.keycount),
                spent: flakes,
                held: flakes,
                epoch,
            }
        }
        Way::Clear(cleared) => Record {
            held: leave(r.held, cleared),
            ..r
        },
    }
}
