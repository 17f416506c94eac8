// The cases of the bench have no code: see specs/ and proofs/.

#![tactic(auto)]
