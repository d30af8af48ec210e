// Rows of fields of fixed width: definitions and theorems, no code.
// It touches `words` for little-endian numbers, and `base`.

#![tactic(auto)]
