// The auditor's page: standard input, as the sheet takes it, to the page on standard output.
// It touches `pages`, which makes the page, and the toolchain's `io` to read and write.

#![tactic(auto)]

// The buffer is as long as `audit_page` asks by its type. std's `Read` has no call that fills it and tells how much came: `read_exact`
// fails at a shorter input, and `read_to_end` needs a heap.
fn main() {
    let mut input = [0u8; 61513];
    let n = io::read_full(0, &mut input);
    let mut out = [0u8; 114688];
    let k = pages::audit_page(&input, n, &mut out);
    io::write_all(1, &out[..k]);
}
