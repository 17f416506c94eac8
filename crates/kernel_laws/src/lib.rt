// The log of a kernel's session has definitions and laws only: see specs/.

#![tactic(auto)]
