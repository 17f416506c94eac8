// Lists of data objects: which bytes are one, what stands at a place of it, and an object looked up by its tag.
#![tactic(auto)]

mod list;
pub mod lookup;
pub mod place;

// What stands under a tag in a list: its value's place, where it stands once.
#[derive(Clone, Copy)]
pub enum Found {
    Absent,
    Once { start: usize, end: usize },
    Twice,
}

// What stands under four tags in a list, found in one pass; nothing where the bytes are no list.
#[derive(Clone, Copy)]
pub struct Members {
    pub list: bool,
    pub first: Found,
    pub second: Found,
    pub third: Found,
    pub fourth: Found,
}
