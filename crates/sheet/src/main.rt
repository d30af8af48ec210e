// The sheet: standard input to one line of standard output.
// It touches `sheets`, which makes the line, and the toolchain's `io` to read and write.

#![tactic(auto)]

// The buffer is as long as `sheet_line` asks by its type. std's `Read` has no call that fills it and tells how much came: `read_exact`
// fails at a shorter input, and `read_to_end` needs a heap.
fn main() {
    let mut input = [0u8; 61513];
    let n = io::read_full(0, &mut input);
    let mut out = [0u8; 128];
    let k = sheets::sheet_line(&input, n, &mut out);
    io::write_all(1, &out[..k]);
}
