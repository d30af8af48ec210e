// A summary over any history: what the calls answer, after which calls it still belongs, and what makes it belong again: no code.
// It touches the definitions and laws of `summaries` and `history`.

#![tactic(auto)]
