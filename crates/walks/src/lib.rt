// What the proofs by hand have in common, as steps of the logic's calculus: no code.
// It touches the toolchain's logic alone.

#![tactic(auto)]
