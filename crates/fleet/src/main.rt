// The fleet's sheet: drives' lines on standard input to one line of standard output.
// It touches `fleets`, which makes the line, and the toolchain's `io` to read and write.

#![tactic(auto)]

// The buffer is as long as `fleet_read` asks by its type. std's `Read` has no call that fills it and tells how much came: `read_exact`
// fails at a shorter input, and `read_to_end` needs a heap.
fn main() {
    let mut input = [0u8; 32769];
    let n = io::read_full(0, &mut input);
    let mut out = [0u8; 192];
    let k = fleets::fleet_read(&input, n, &mut out);
    io::write_all(1, &out[..k]);
}
