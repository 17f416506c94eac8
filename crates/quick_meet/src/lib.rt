// What stands at a block of a tape, beside what is due there: an entry of a kind, a command with the card's answer, the decision.
#![tactic(auto)]

pub mod meet;
