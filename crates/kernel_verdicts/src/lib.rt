// Kernel sessions recorded and judged: laws only, see proofs/.

#![tactic(auto)]
