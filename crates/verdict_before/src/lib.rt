// That a tape with the shorter START is judged by the rules before cardholder verification: definitions and laws only, see specs/ and
// proofs/.

#![tactic(auto)]
