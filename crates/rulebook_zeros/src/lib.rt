// What was filled with zeros, over whole sessions: definitions and laws only, see specs/ and proofs/.

#![tactic(auto)]
