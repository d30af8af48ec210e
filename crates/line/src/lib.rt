// The bytes of the sheet's line, for every report and every answer, and what other lines are put together from.
// It touches `answers` and `words`, and the toolchain's `itoa` for decimal digits.
#![tactic(auto)]

ghost use Rattle.std.specs.Prelude.{◌≡◌, ◌++◌, ◌+◌, ◌≤◌, length, take};
ghost use Rattle.line.specs.Decimal.{width_in, decimal, long_decimal};
ghost use Rattle.line.specs.Lines.{Put, share_text, report_text, report_line, class_text, place_text, carried_text, refusal_line};
ghost use Rattle.line.specs.Pages.{Puts};

use answers::{Answer, Carried, Class, Place};

// How many decimal digits n has.
pub fn width(n: u64) -> usize
    ensures { result ≡ width_in 19 n }
{
    n.checked_ilog10().map_or(1, |k| k as usize + 1)
}

// A page while it is written: what was lent for it, and the place of the next byte.
#[derive(Drop)]
pub struct Page<'a> {
    pub out: &'a mut [u8],
    pub at: usize,
}

#[tactic(auto, using(crate::proofs::PutLaws::reaches))]
impl Page<'_> {
    // What stands before the page's place.
    pub fn written(&self) -> &[u8]
        requires { self.now.at ≤ length self.now.out.now }
        ensures { (result.now ≡ take self.now.at self.now.out.now) × (result.ref_ptr ≡ self.now.out.ref_ptr) }
    {
        &self.out[..self.at]
    }

    pub fn put(&mut self, text: &[u8])
        requires { self.old.at + length text.now ≤ length self.old.out.now }
        ensures { Puts self.old text.now self.new }
    {
        words::copy(&mut *self.out, self.at, text);
        self.at += text.len();
    }

    // n in decimal, however many digits it has. No `write!`: std's words let one fail, and nothing here can.
    pub fn put_long(&mut self, n: u64)
        requires { self.old.at + length (long_decimal n) ≤ length self.old.out.now }
        ensures { Puts self.old (long_decimal n) self.new }
    {
        let mut digits = itoa::Buffer::new();
        self.put(digits.format(n).as_bytes());
    }

    // A number of 32 bits has no more than ten digits.
    fn put_number(&mut self, n: u32)
        requires { self.old.at + 10 ≤ length self.old.out.now }
        ensures { Puts self.old (decimal n) self.new }
    {
        self.put_long(u64::from(n));
    }

    // A name and its number.
    pub fn put_field(&mut self, name: &[u8], n: u32)
        requires { self.old.at + length name.now + 10 ≤ length self.old.out.now }
        ensures { Puts self.old (name.now ++ decimal n) self.new }
    {
        self.put(name);
        self.put_number(n);
    }

    // The share, "shown with two decimals".
    fn put_share(&mut self, share: u32)
        requires { self.old.at + 13 ≤ length self.old.out.now }
        ensures { Puts self.old (share_text share) self.new }
    {
        self.put_number(share / 100);
        self.put(&[
            b'.',
            b'0' + (share / 10 % 10) as u8,
            b'0' + (share % 10) as u8,
        ]);
    }

    // A report's text. Six numbers, as `report_line` says: a struct of them would be `reports`' own a second time.
    pub fn report_text(&mut self, n: u32, moved: u32, left: u32, flakes: u32, share: u32, done: u32)
        requires { self.old.at + 105 ≤ length self.old.out.now }
        ensures { Puts self.old (report_text n moved left flakes share done) self.new }
    {
        self.put_field(b"nuggets=", n);
        self.put_field(b" moved=", moved);
        self.put_field(b" left=", left);
        self.put_field(b" flakes=", flakes);
        self.put(b" share=");
        self.put_share(share);
        self.put_field(b" done=", done);
    }

    fn put_class(&mut self, class: Option<Class>)
        requires { self.old.at + 7 ≤ length self.old.out.now }
        ensures { Puts self.old (class_text class) self.new }
    {
        match class {
            None => (),
            Some(Class::Form) => self.put(b"form"),
            Some(Class::Key) => self.put(b"key"),
            Some(Class::Altered) => self.put(b"altered"),
            Some(Class::Request) => self.put(b"request"),
            Some(Class::Spent) => self.put(b"spent"),
        }
    }

    fn put_place(&mut self, place: Place)
        requires { self.old.at + 40 ≤ length self.old.out.now }
        ensures { Puts self.old (place_text place) self.new }
    {
        match place {
            Place::Head => self.put(b" place=head"),
            Place::Record(n) => self.put_field(b" place=record ", n),
            Place::Node(i) => self.put_field(b" place=node ", i),
            Place::Flake(n, f) => {
                self.put_field(b" place=flake ", n);
                self.put_field(b" ", f);
            }
        }
    }

    fn put_carried(&mut self, carried: Option<Carried>)
        requires { self.old.at + 40 ≤ length self.old.out.now }
        ensures { Puts self.old (carried_text carried) self.new }
    {
        if let Some(Carried::At(p)) = carried {
            self.put_place(p);
        }
    }
}

#[tactic(auto, using(crate::proofs::PutLaws::reaches))]
// The report's line in the first bytes of `out`; how many they are.
// Six numbers one by one: the definition names them, and `Report` stands above this crate.
pub fn report_line(
    out: &mut [u8],
    n: u32,
    moved: u32,
    left: u32,
    flakes: u32,
    share: u32,
    done: u32,
) -> usize
    requires { 128 ≤ length out.old }
    ensures { Put out.old 0 (report_line n moved left flakes share done) result out.new }
{
    let mut page = Page { out, at: 0 };
    page.report_text(n, moved, left, flakes, share, done);
    page.put(b"\n");
    page.at
}

#[tactic(auto, using(crate::proofs::PutLaws::reaches))]
// The refusal's line in the first bytes of `out`; how many they are.
pub fn refusal_line(out: &mut [u8], answer: Answer) -> usize
    requires { 128 ≤ length out.old }
    ensures { Put out.old 0 (refusal_line answer) result out.new }
{
    let number = answers::number(answer);
    let mut page = Page { out, at: 0 };
    page.put_field(b"refused=", number);
    page.put(b" class=");
    page.put_class(answers::class_of(number));
    page.put_carried(answers::carried_by(answer));
    page.put(b"\n");
    page.at
}
