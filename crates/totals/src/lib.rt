// The drives of a fleet: their totals, and the drive furthest behind.
// It touches `standings` for how a drive stands, and `reports` for its counts.
#![tactic(auto)]

ghost use Rattle.std.specs.Prelude.{◌≡◌, true, ◌+◌, ◌*◌, ◌^◌, ◌<◌, ◌≤◌};
ghost use Rattle.standings.specs.Standing.{possible};
ghost use Rattle.totals.specs.Fleet.{fraction_of, is_behind, together, nobody, is_last, joined, Summed};

use reports::Counts;
use standings::Standing;

// How many drives, their totals, and the line number and standing of the drive furthest behind.
#[derive(Clone, Copy, Default)]
pub struct Fleet {
    pub drives: u32,
    pub total: Standing,
    pub last: u32,
    pub least: Standing,
}

// So much done of all.
#[derive(Clone, Copy)]
struct Fraction {
    done: u32,
    all: u32,
}

#[tactic(auto, unfolding(crate::specs::Fleet::fraction_of))]
fn fraction_of(t: Standing) -> Fraction
    ensures { result ≡ fraction_of t }
{
    let Standing { n, counts } = t;
    if counts.flakes == 0 {
        Fraction {
            done: counts.moved,
            all: n,
        }
    } else {
        Fraction {
            done: counts.done,
            all: counts.flakes,
        }
    }
}

// In 64 bits: it doesn't roll over.
fn product(a: u32, b: u32) -> u64
    ensures { result ≡ a * b }
{
    u64::from(a) * u64::from(b)
}

// By cross products: nothing is rounded. No `PartialOrd` of fractions: 0 of 0 would equal every other, which no order allows.
#[tactic(auto, unfolding(crate::specs::Fleet::is_behind))]
fn is_behind(a: Standing, b: Standing) -> bool
    ensures { result ≡ is_behind a b }
{
    let x = fraction_of(a);
    let y = fraction_of(b);
    product(x.done, y.all) < product(y.done, x.all)
}

fn together(a: Standing, b: Standing) -> Standing
    requires { (a.n + b.n < 2 ^ 32) × (a.counts.moved + b.counts.moved < 2 ^ 32)
        × (a.counts.flakes + b.counts.flakes < 2 ^ 32) × (a.counts.done + b.counts.done < 2 ^ 32) }
    ensures { result ≡ together a b }
{
    Standing {
        n: a.n + b.n,
        counts: Counts {
            moved: a.counts.moved + b.counts.moved,
            flakes: a.counts.flakes + b.counts.flakes,
            done: a.counts.done + b.counts.done,
        },
    }
}

pub fn nobody() -> Fleet
    ensures { result ≡ nobody }
{
    Fleet::default()
}

// The drive stands behind all before it; so does the first.
#[tactic(auto, unfolding(crate::specs::Fleet::is_last))]
fn is_last(f: Fleet, t: Standing) -> bool
    ensures { result ≡ is_last f t }
{
    f.drives == 0 || is_behind(t, f.least)
}

// The fleet with one drive more.
#[tactic(auto, unfolding(crate::specs::Fleet::joined))]
pub fn joined(f: Fleet, t: Standing) -> Fleet
    requires { (f.drives < 256) × Summed f × (possible t ≡ true) }
    ensures { result ≡ joined f t }
{
    let drives = f.drives + 1;
    let total = together(f.total, t);
    if is_last(f, t) {
        Fleet {
            drives,
            total,
            last: drives,
            least: t,
        }
    } else {
        Fleet { drives, total, ..f }
    }
}
