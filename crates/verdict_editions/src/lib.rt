// Two editions of the rules, and which tapes both judge alike: definitions and laws only, see specs/ and proofs/.

#![tactic(auto)]
