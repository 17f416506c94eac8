// Verdicts of tapes by the rules of 01, and laws over them. There is no code here.

#![tactic(auto)]
