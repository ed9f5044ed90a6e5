// The claimed graph: edges, successors, destinations, target sets and IDs, and what breaks rules 7 to 10 and 12. This crate holds
// definitions and laws; the code is in `checker`.

#![tactic(auto)]
