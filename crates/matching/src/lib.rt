// Graphs, matchings and certificates. It has no code yet: see specs/ and proofs/.
#![tactic(auto)]
