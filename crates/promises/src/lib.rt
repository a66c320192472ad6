// The promises: statements and proofs only.
#![tactic(auto)]
