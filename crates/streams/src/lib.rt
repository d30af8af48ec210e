// A keystream in pieces of 64 bytes laid over a text, once over any cipher: definition and laws, no code.
// It touches the definitions and laws of `base` and `words`.

#![tactic(auto)]
