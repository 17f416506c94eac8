// Object lists, filled from what the terminal knows, and how many of their entries it does not.
#![tactic(auto)]

pub mod count;
pub mod fill;

// What a list is filled from: START, and the slots of what is known.
#[derive(Clone, Copy)]
pub struct Sources<'a> {
    pub start: &'a [u8],
    pub known: &'a [u8],
}
