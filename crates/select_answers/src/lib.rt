// What a selection reads of an answer; none of these looks at the status.
#![tactic(auto)]

pub mod directory;
pub mod files;
mod objects;
