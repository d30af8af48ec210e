// What a call stores, as a list: which bytes at which place, the first first; definitions and theorems, no code.
// It touches the definitions of the changing calls, and `history` for the calls of a history.

#![tactic(auto)]
