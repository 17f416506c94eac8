// Laws of the T=1 layer: see specs/ and proofs/. No code.

#![tactic(auto)]
