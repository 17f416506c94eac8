// What is found of a tape from one of its blocks on: definitions and laws only, see specs/.

#![tactic(auto)]
