// The rules with choosing the application, as one value beside those of today: definitions and laws only.

#![tactic(auto)]
