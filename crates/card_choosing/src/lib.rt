// What a card can influence while the application is chosen, and after it: definitions and laws only, see specs/ and proofs/.

#![tactic(auto)]
