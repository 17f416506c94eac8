// The application file locator (AFL): which records the card wants read.
#![tactic(auto)]

pub mod cursor;
pub mod entries;
