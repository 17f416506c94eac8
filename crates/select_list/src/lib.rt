// The list of applications that a selection chooses from, in lent bytes.
#![tactic(auto)]

pub mod joining;
mod moving;
pub mod reading;
