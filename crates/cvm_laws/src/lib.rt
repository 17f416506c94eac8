// Cardholder verification has definitions and laws here: see specs/ and proofs/.

#![tactic(auto)]
