// Definitions and laws that the crates above share. It has no code: see specs/ and proofs/.
#![tactic(auto)]
