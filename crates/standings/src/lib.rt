// How a drive stands in the change of its secret, and its sheet line read back.
// It touches `line` for the line's bytes, `reports` for the counts and the share, and `words`.
#![tactic(auto)]

mod reading;

ghost use Rattle.std.specs.Prelude.{◌≡◌, ◌+◌, ◌≤◌, length};
ghost use Rattle.base.specs.Lists.{same};
ghost use Rattle.line.specs.Pages.{Puts};
ghost use Rattle.standings.specs.Standing.{standing_text, possible, told_in, found_in};

use line::Page;
pub use reading::{behind, find};
use reports::Counts;

// N, and what is counted of its nuggets and flakes.
#[derive(Clone, Copy, Default)]
pub struct Standing {
    pub n: u32,
    pub counts: Counts,
}

// The sheet's line of a drive that stands so, without its newline.
pub fn put_standing(page: &mut Page, t: Standing)
    requires { (page.old.at + 105 ≤ length page.old.out.now) × (t.counts.moved ≤ t.n) }
    ensures { Puts page.old (standing_text t) page.new }
{
    let Standing { n, counts } = t;
    let share = reports::share_of(n, counts);
    page.report_text(
        n,
        counts.moved,
        n - counts.moved,
        counts.flakes,
        share,
        counts.done,
    );
}

// "that no volume within the limits could give"
#[tactic(auto, unfolding(crate::specs::Standing::possible))]
fn is_possible(t: Standing) -> bool
    ensures { result ≡ possible t }
{
    let c = t.counts;
    (1..=16384).contains(&t.n)
        && c.moved <= t.n
        && c.done <= c.flakes
        && c.done <= 64 * c.moved
        && c.flakes - c.done <= 64 * (t.n - c.moved)
}

// Whether these are the bytes of its line.
fn spells(t: Standing, line: &[u8]) -> bool
    requires { t.counts.moved ≤ t.n }
    ensures { result ≡ same (standing_text t) line.now }
{
    let mut out = [0u8; 128];
    let mut page = Page {
        out: &mut out,
        at: 0,
    };
    put_standing(&mut page, t);
    words::equal(page.written(), line)
}

// What the line's fields tell.
fn told_in(line: &[u8]) -> Standing
    ensures { result ≡ told_in line.now }
{
    Standing {
        n: reading::field(line, 0),
        counts: Counts {
            moved: reading::field(line, 1),
            flakes: reading::field(line, 3),
            done: reading::field(line, 5),
        },
    }
}

// What a line tells, if it is taken: if that is possible, and it is the sheet's line of that, to the byte.
pub fn found_in(line: &[u8]) -> Option<Standing>
    ensures { result ≡ found_in line.now }
{
    let t = told_in(line);
    (is_possible(t) && spells(t, line)).then_some(t)
}
