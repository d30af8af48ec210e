// That a queue is its writes: write by write, over any history, and for a host in C; definitions and theorems, no code.
// It touches the definitions of `queues`, `history` and `chained`.

#![tactic(auto)]
