// Numbers and dates that are written in decimal digits, two to a byte.
#![tactic(auto)]

pub mod dates;
pub mod decimal;
pub mod limits;
