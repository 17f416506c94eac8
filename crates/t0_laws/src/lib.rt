// Laws of the T=0 layer: no code, see specs/ and proofs/.

#![tactic(auto)]
