// The head of a data object: its tag and its length, and the object that stands at a place.
#![tactic(auto)]

pub mod head;
pub mod tag;

// What the reader finds at a place of a list.
#[derive(Clone, Copy)]
pub enum Next {
    // An object: its tag, and its value from `start` up to `end`, which is where to go on.
    Member {
        tag: usize,
        start: usize,
        end: usize,
    },
    // No object is left.
    End,
    // What stands there is no object.
    Broken,
}
