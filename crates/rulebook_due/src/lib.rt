// What is due after some entries, over the rulebook: definitions and laws only, see specs/ and proofs/.

#![tactic(auto)]
