// The auditor's page over any history: what it tells of a flake is the pad last listed for it. Definitions and theorems, no code.
// It touches `auditor` for what is read off the page, and `history` for what was listed.

#![tactic(auto)]
