// The four commands, each written at the start of a lent buffer; the answer is its length, 0 where it has no room.
#![tactic(auto)]

mod data;
pub mod write;
