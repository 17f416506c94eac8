// What was filled with zeros, over sessions with a selection: definitions and laws only, see specs/ and proofs/.

#![tactic(auto)]
