// Definitions and laws that every crate cites, with no code: choices by a test, lists made by an
// index, parts of a list, and folds. It touches nothing.

#![tactic(auto)]
