// That each named object of a search counts, worked out in pairs of sessions: definitions and laws only, see specs/ and proofs/.

#![tactic(auto)]
