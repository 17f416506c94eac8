// How a selection goes on and ends, and that a list which is cut decides as the whole list does: definitions and laws only.

#![tactic(auto)]
