// Worked sessions of the rulebook, and what they shut out: see proofs/.

#![tactic(auto)]
