// Cardholder verification by the list 8E: two amounts, then rules of two bytes each.
#![tactic(auto)]

pub mod list;
pub mod verify;
