// Searches over the numbers below a bound, places that callers lend, and, in `proofs/`, laws about them and about joined tests: what every
// crate above cites. This crate holds definitions and laws.
#![tactic(auto)]
