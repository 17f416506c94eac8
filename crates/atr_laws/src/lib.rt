// Reading an answer to reset has definitions and laws here: see specs/ and proofs/.

#![tactic(auto)]
