// What an auditor reads off the page, and that it is what the records say: definitions and theorems, no code.
// It touches `pages` for the page, and `nuggets` for the key that a nugget is under.

#![tactic(auto)]
