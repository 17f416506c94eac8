// What a session is, whatever the rules: definitions and laws only, see specs/.

#![tactic(auto)]
