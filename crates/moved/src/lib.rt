// What a move between versions leaves: contents, keycounts, epochs and stored flakes stay, what was moved mounts, and moving back
// gives the first volume but for counter and seal; definitions and theorems, no code. It touches the definitions of `moving` and
// `history`.

#![tactic(auto)]
