// One end of a T=1 line, terminal or card: what it keeps between two blocks.
#![tactic(auto)]

mod change;
mod limits;
mod names;

use apdu::ANSWER_MOST;
pub use limits::room_for;
use t1_block::What;

#[derive(Clone, Copy)]
pub enum Role {
    Terminal,
    Card,
}

// The terminal's first request is due; a request of our own is open; a message of ours is due; an I-block of ours is out; a
// message comes in, or a card's first one is awaited; the end.
#[derive(Clone, Copy)]
pub enum Phase {
    Start,
    Asking,
    Due,
    Sent,
    Receiving,
    Over,
}

// The block that went out last: none yet, the I-block, an R-block by its PCB, an S-block with its value. No `Option` around it: that no
// block is out is one more case of each function that reads it, and joins the I-block in most.
#[derive(Clone, Copy)]
pub enum Last {
    Nothing,
    Information,
    Ready(u8),
    Request(What, u8),
    Response(What, u8),
}

// The number of our next I-block, and that of the I-block we expect.
#[derive(Clone, Copy)]
pub struct Numbers {
    pub next: bool,
    pub expected: bool,
}

// The longest information field that the other end takes, and that we take.
#[derive(Clone, Copy)]
pub struct Sizes {
    pub theirs: u8,
    pub ours: u8,
}

// How often the I-block has gone out, and how often in a row the R-block or request.
#[derive(Clone, Copy)]
pub struct Counts {
    pub information: usize,
    pub same: usize,
}

// A message of ours with zeros behind it (no heap, so an array with a length), and the piece of it that is out.
#[derive(Clone, Copy)]
pub struct Message {
    pub bytes: [u8; ANSWER_MOST],
    pub length: usize,
    pub at: usize,
    pub size: usize,
}

#[derive(Clone, Copy)]
pub struct State {
    pub role: Role,
    pub phase: Phase,
    pub last: Last,
    pub numbers: Numbers,
    pub sizes: Sizes,
    pub counts: Counts,
    pub message: Message,
    // how many bytes of the message that comes in have come
    pub received: usize,
}

// How an end of the line stops.
#[derive(Clone, Copy)]
pub enum End {
    Limit,
    Abort,
    Silence,
}

// Why an event is turned away: the end has stopped; not what is due; a message with no bytes or too many; a value that may
// not be asked for.
#[derive(Clone, Copy)]
pub enum Refusal {
    Closed,
    NotDue,
    Message,
    Value,
}

// Nothing goes out; a block goes out; its field is kept and a block goes out; its value is taken and a block goes out; its field
// is kept and the message is whole, with so many bytes; the end; or a refusal. Not a `Result`: the theorems on any events in a row say
// what an end is after each, so that a refusal too comes with the state.
#[derive(Clone, Copy)]
pub enum Act {
    Nothing,
    Send,
    Keep,
    Value,
    Whole(usize),
    End(End),
    Refuse(Refusal),
}

#[derive(Clone, Copy)]
pub struct Turn {
    pub state: State,
    pub act: Act,
}
