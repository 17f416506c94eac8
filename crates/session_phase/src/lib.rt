// What a session waits for, and what a call is answered with.
#![tactic(auto)]

mod due;
mod say;

use decide_cryptogram::Cryptogram;
pub use due::{awaits, count_due, kind_of, outcome, reason};
pub use say::{is_allowed, refusal_by};
use words::Word;

// What the card was asked.
#[derive(Clone, Copy)]
pub enum Question {
    Select,
    Options,
    Record,
    First(Cryptogram),
    Second(Cryptogram),
}

// Who else can have the next word: the terminal with START; after it whoever has the word that is due, and how many are wanted of what is
// counted in it; or the shopper, with the choice among so many shown.
#[derive(Clone, Copy)]
pub enum Speaker {
    Terminal,
    Says(Word, usize),
    Shopper(usize),
}

// An answer of the card's, to a command of the selection or to another question, or somebody else's word; or the session is over, with its
// outcome and its reason or 0, or closed by silence.
#[derive(Clone, Copy)]
pub enum Waiting {
    Searching,
    ForCard(Question),
    ForWord(Speaker),
    Decided(u8, u8),
    Closed,
}

// A command of so many bytes stands in the buffer and its answer is due; an entry of this kind is due; the session is decided; it
// was closed by silence; or the call was turned away with a number of 01's table.
#[derive(Clone, Copy)]
pub enum Reply {
    Command(usize),
    Due(u8),
    Decided,
    Closed,
    Refused(usize),
}
