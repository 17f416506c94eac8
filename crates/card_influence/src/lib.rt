// What a card can influence in calls and verdicts: definitions and laws only, see specs/ and proofs/.

#![tactic(auto)]
