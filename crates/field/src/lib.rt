// The field of 256 elements and the S-box of FIPS 197 by their rules, both tables against them, and linearity; no code.
// It touches the definitions and laws of `base` and `words`.

#![tactic(auto)]
