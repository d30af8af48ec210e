// What the host prints: refusals and reports, in the sheet's form.
// It touches `line`, which makes the lines.
use answers::Answer;
use reports::Report;
use std::io;
use std::io::Write;

// What can't be written is let go, as in the programs that read: each line is tried, and the program ends the same.
pub(crate) fn put(rt: &impl Print, text: &[u8]) {
    let _ = io::writer(rt).write_all(text);
}

// The line of a refusal.
pub(crate) fn say(rt: &impl Print, a: Answer) {
    if a.is_ok() {
        return;
    }
    let mut out = [0u8; 128];
    let k = line::refusal_line(&mut out, a);
    put(rt, &out[..k]);
}

// The report's line.
pub(crate) fn show(rt: &impl Print, r: Report) {
    let mut out = [0u8; 128];
    let k = line::report_line(&mut out, r.n, r.moved, r.left, r.flakes, r.share, r.done);
    put(rt, &out[..k]);
}
