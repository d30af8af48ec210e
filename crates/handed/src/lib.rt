// What an export holds, that an import is its write, and that an import after an export gives the same contents; definitions and
// theorems, no code. It touches the definitions of `handing` and `history`.

#![tactic(auto)]
