// The whole promise on one page. There is no code here: `specs/Promises.antt` is the page, `proofs/Promises.antt` holds it.

#![tactic(auto)]
