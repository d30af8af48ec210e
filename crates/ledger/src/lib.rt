// The listing of encipherings and what every change keeps true of it: definitions and theorems, no code and no bytes of a volume.
// It touches the definitions and laws of `base`, `words` and `records`.

#![tactic(auto)]
