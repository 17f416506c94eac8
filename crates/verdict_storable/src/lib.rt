// That every session can be stored on a tape: laws only, see proofs/.

#![tactic(auto)]
