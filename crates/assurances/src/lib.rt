// That the promises aren't empty: a history in which every kind of call is accepted, and what no call looks at; definitions and theorems, no code.
// It touches the definitions of all the calls, and the theorems over histories.

#![tactic(auto)]
