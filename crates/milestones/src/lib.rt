// What a fleet's line says of the drives behind it: definitions and theorems, no code.
// It touches `fleets` and `standings` for the lines, `reports` for what a drive tells, and `opening`, `drive` and `tree` for a
// volume that gives any possible line.

#![tactic(auto)]
