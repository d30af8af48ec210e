// A program: the published vectors of FIPS 197, SP 800-38A and IEEE 1619, run through the proved crates; specs/ has the first as a theorem.
// It touches `aes`, `aes_back`, `ctr` and `xts`, of `base`, `words` and `field` the definitions.
#![tactic(auto)]

mod blocks;
mod counters;
mod hex;
mod sectors;

// As in the programs that read, what can't be written is let go: each line is tried, and the program ends the same.
fn main(rt: HostRuntime) {
    blocks::appendix_c(&rt);
    counters::encrypted(&rt);
    counters::decrypted(&rt);
    sectors::both(&rt);
}
