// What the records of a card have told: one array, a slot for each name. Beside it long values that are kept by value.
#![tactic(auto)]

pub mod records;
pub mod runs;
pub mod slots;

use answer_common::answer::VALUE_MOST;

// The bytes of all slots together.
pub const END: usize = 817;

// The most bytes of a value: no answer has room for more.
pub const LONGEST: usize = VALUE_MOST;

#[derive(Clone, Copy)]
pub struct Slot {
    pub at: usize,
    pub size: usize,
}

// A slot's first byte is 0 where nothing was told, else one more than the number of bytes after it that count.
#[derive(Clone, Copy)]
pub struct Store {
    pub bytes: [u8; END],
}

// A long value that is kept by value (no heap, so an array with a length): its first `len` bytes count, where it is there at all.
#[derive(Clone, Copy)]
pub struct Run {
    pub bytes: [u8; LONGEST],
    pub len: usize,
    pub there: bool,
}
