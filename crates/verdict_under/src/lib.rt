// Verdicts of tapes under any rules: what they mean, how they are found, and laws over them. There is no code here.

#![tactic(auto)]
