// Guarded code from bare code (document 02, K7): what the rewriter puts for each word, which bare code it turns away, and that what comes
// out is accepted. This crate holds definitions and laws; the code is in `rewrite`.
#![tactic(auto)]
