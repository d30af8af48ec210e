// What is hashed for which key, check, seal and node: the messages as data, their bytes, and that no two have the same; no code.
// It touches the definitions and laws of `base` and `words`.

#![tactic(auto)]
