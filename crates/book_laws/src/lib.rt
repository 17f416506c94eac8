// Laws of the campaign book: no code, see specs/ and proofs/.

#![tactic(auto)]
