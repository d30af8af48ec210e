// Nodes 1 to 2L - 1 in a row, each over the two below it, stored anew along a path or all: definitions and laws, no code.
// It touches the definitions and laws of `base`.

#![tactic(auto)]
