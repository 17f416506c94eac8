// START, the terminal's data: where its fields stand, and what they hold.
#![tactic(auto)]

pub mod fields;
