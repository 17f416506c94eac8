// What is due after some entries, under any rules: definitions and laws only, see specs/ and proofs/.

#![tactic(auto)]
