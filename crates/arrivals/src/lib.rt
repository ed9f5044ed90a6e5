// Where no path leads, no run arrives (document 02, K9): one theorem (`specs/Arrivals.antt`).

#![tactic(auto)]
