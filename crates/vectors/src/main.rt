// A program: the published vectors of RFC 8439 and RFC 7693, run through the proved crates.
// It touches `chacha20`, `poly1305`, `blake2s`, `keys` and `words`.
#![tactic(auto)]

mod cipher;
mod hashes;
mod hex;
mod inputs;
mod others;
mod pieces;
mod tags;

// As in the programs that read, what can't be written is let go: each line is tried, and the program ends the same.
fn main(rt: HostRuntime) {
    cipher::sections(&rt);
    cipher::blocks(&rt);
    cipher::texts(&rt);
    tags::sections(&rt);
    tags::texts(&rt);
    tags::edges(&rt);
    tags::keys(&rt);
    hashes::sections(&rt);
    hashes::self_test(&rt);
    hashes::in_pieces(&rt);
}
