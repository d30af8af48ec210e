// A host in Rattle: it formats a drive, writes, changes the secret nugget by nugget, reads back and reports.
// It touches `lent`, whose calls change one drive where it stands, and `lines` to print.
#![tactic(auto)]

mod lines;

ghost use Rattle.std.specs.Prelude.{◌≡◌, length};
ghost use Rattle.recorder.specs.Session.{holding, swept_from, heard_of, left_by, reading_back};

use answers::Answer;
use drive::Drive;
use layout::Shape;
use reports::Report;

// The shape of a drive, its outside counter, and where the text is written.
#[derive(Clone, Copy)]
pub struct Setup {
    pub shape: Shape,
    pub outside: u64,
    pub offset: u64,
}

// What the calls of a session answered, and the report at its end.
#[derive(Clone, Copy)]
pub struct Heard {
    pub formatted: Answer,
    pub written: Answer,
    pub begun: Answer,
    pub early: Answer,
    pub finished: Answer,
    pub read: Answer,
    pub report: Report,
}

// Sweeps the nuggets 0 to n - 1.
pub fn sweep_all(d: &mut Drive, vol: &mut [u8], n: u32)
    ensures { holding d.new vol.new ≡ swept_from 0 n (holding d.entry.now vol.old) }
{
    for k in 0..n {
        let _ = lent::sweep_at(d, vol, k);
    }
}

// Formats, writes the text, changes the secret from the first to the second, reads back and reports. The early finish is refused.
pub fn session(
    s: Setup,
    salt: [u8; 16],
    first: [u8; 32],
    second: [u8; 32],
    vol: &mut [u8],
    text: &[u8],
    back: &mut [u8],
) -> Heard
    ensures { (result ≡ heard_of s salt first second vol.old text.now (length back.old))
        × ((vol.new ≡ (left_by s salt first second vol.old text.now).vol)
        × (back.new ≡ reading_back s salt first second vol.old text.now back.old)) }
{
    let mut d = drive::blank();
    let formatted = lent::format_at(&mut d, vol, s.shape, salt, first, s.outside);
    let written = lent::write_at(&mut d, vol, s.offset, text);
    let begun = lent::begin_at(&mut d, vol, second);
    let early = lent::finish_at(&mut d, vol);
    sweep_all(&mut d, vol, s.shape.n);
    let finished = lent::finish_at(&mut d, vol);
    let read = lent::read_at(&d, vol, s.offset, back);
    let report = lent::report_at(&d, vol);
    Heard {
        formatted,
        written,
        begun,
        early,
        finished,
        read,
        report,
    }
}

fn main(rt: HostRuntime) {
    let mut vol = [0u8; 862]; // N 3, P 2, F 64: document 01's first figure
    let mut back = [0u8; 15];
    let shape = Shape {
        n: 3,
        p: 2,
        f: 64,
        version: 1,
        cipher: 0,
    };
    let s = Setup {
        shape,
        outside: 0,
        offset: 100,
    };
    let t = session(
        s,
        [5u8; 16],
        [1u8; 32],
        [2u8; 32],
        &mut vol,
        b"weld 7: 12.4mm\n",
        &mut back,
    );
    lines::say(&rt, t.formatted);
    lines::say(&rt, t.written);
    lines::say(&rt, t.begun);
    lines::say(&rt, t.early); // 11: three nuggets are left
    lines::say(&rt, t.finished);
    lines::say(&rt, t.read);
    lines::put(&rt, &back);
    lines::show(&rt, t.report);
}
