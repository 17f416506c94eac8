// The search for an application: where it stands, and what an answer and a choice make of it. The list of applications is lent.
#![tactic(auto)]

mod directory;
mod finals;
mod going;
mod listing;
mod status;
pub mod turns;

// The command that is due: the environment selected; a record of the directory read; an AID of START selected, by its place in the list,
// for its first occurrence or the next; an application of the list selected, by its place, and whether the shopper took it.
#[derive(Clone, Copy)]
pub enum Step {
    Environment,
    Directory { file: u8, record: u8 },
    Listed { aid: u8, again: bool },
    Final { place: u8, taken: bool },
}

// The exchanges made, the one that is due included; whether an application that the shopper took has fallen out.
#[derive(Clone, Copy)]
pub struct Stand {
    pub exchanges: u8,
    pub step: Step,
    pub fallen: bool,
}

// What the card's answer is looked at with: START, the answer, and where the search stands.
#[derive(Clone, Copy)]
struct Hearing<'a> {
    start: &'a [u8],
    answer: &'a [u8],
    stand: Stand,
}

// What follows: the next exchange; a choice of the shopper's; GET PROCESSING OPTIONS, with the list 9F38 of the answer that was heard; or
// the end, with its reason.
#[derive(Clone, Copy)]
pub enum Turn {
    Asks(Stand),
    Shows(Stand),
    Runs,
    Over(usize),
}
