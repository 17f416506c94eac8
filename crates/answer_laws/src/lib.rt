// What the card must answer, over the four kinds of answers together: laws alone.

#![tactic(auto)]
