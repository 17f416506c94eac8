// What every answer of the card is asked: its size, its status and its one object, and the named objects in that.
#![tactic(auto)]

pub mod answer;
pub mod content;
pub mod forms;
pub mod named;
mod number;
