// Definitions and laws that several crates cite, about truth values, differences of numbers, numbers in bytes and stretches of lists. There is
// no code here: `specs/` and `proofs/` have them.
#![tactic(auto)]
