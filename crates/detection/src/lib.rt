// What an accepted call says of the volume, for every drive and every volume, hostile ones too: definitions and theorems, no code.
// It touches the calls' answers in `opening`, `reading`, `reports` and `changes`, and what they rest on.

#![tactic(auto)]
