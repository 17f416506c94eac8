// The refinement has definitions and laws only: see specs/.

#![tactic(auto)]
