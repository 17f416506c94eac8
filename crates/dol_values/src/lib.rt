// What the terminal knows for an object list: which tags are START's own, the format of each, and how a value is cut or filled to its
// room.
#![tactic(auto)]

pub mod shape;
pub mod supply;
