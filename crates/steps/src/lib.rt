// The step definition of the search and what is proved of it. It has no code: see specs/ and proofs/.
#![tactic(auto)]
