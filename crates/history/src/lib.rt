// The three demands as theorems over every history: one accepted format and any calls after it; definitions and theorems, no code.
// It touches the definitions of all the calls, and their laws.

#![tactic(auto)]
