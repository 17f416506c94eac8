// Laws over whole tapes, good and damaged: what the reader finds of them, and what the judge says. No code.

#![tactic(auto)]
