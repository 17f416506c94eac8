// What the card has told, as the rules speak of it: definitions alone.

#![tactic(auto)]
