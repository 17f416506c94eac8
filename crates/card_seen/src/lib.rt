// What a card can influence: definitions and laws only, see specs/ and proofs/.

#![tactic(auto)]
