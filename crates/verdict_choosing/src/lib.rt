// Verdicts of tapes by the rules with choosing the application: definitions and laws only, see specs/ and proofs/.

#![tactic(auto)]
