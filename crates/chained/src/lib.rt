// A host in C over any list of calls: it carries image and volume, and its calls are those of the history. Definitions and theorems, no code.
// It touches `ngt` for what the C functions promise, `packed` for the image, and `history`.

#![tactic(auto)]
