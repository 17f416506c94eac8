// The terminal's list of applications in a lent START of 207 bytes: its fields, and whether it is valid.
#![tactic(auto)]

pub mod listing;
pub mod rows;
pub mod valid;
