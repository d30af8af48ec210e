// Document 01's eleven figures as a single table with a single claim: definitions and theorems, no code.
// It touches the definitions of `layout`, `reports`, `line` and `history`, and their laws.

#![tactic(auto)]
