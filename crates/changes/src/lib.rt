// What write, begin, sweep and finish answer, list and leave behind: definitions and their laws, no code.
// It touches the definitions of `records`, `keys`, `tree`, `drive`, `nuggets` and `reports`.

#![tactic(auto)]
