// An exchange by T=0: what it keeps between two bytes of the card's, and what one such byte says.
#![tactic(auto)]

pub mod bytes;
mod change;
mod names;

use apdu::{Case, DATA_MOST, Trailer};

// The header that the card is answering: the command's own, or GET RESPONSE.
#[derive(Clone, Copy, PartialEq, Eq)]
pub enum Sent {
    Own(Case),
    GetResponse,
}

// How many bytes go with the header, either way, and how many of them no procedure byte has moved yet.
#[derive(Clone, Copy)]
pub struct Header {
    pub sent: Sent,
    pub size: usize,
    pub left: usize,
}

// The command's header without its length, and its data with zeros behind.
#[derive(Clone, Copy)]
pub struct Command {
    pub cla: u8,
    pub ins: u8,
    pub p1: u8,
    pub p2: u8,
    pub body: [u8; DATA_MOST],
}

// How often the card has said '60' and '61', and whether it has said '6C'.
#[derive(Clone, Copy)]
pub struct Counts {
    pub waits: usize,
    pub gets: usize,
    pub repeated: bool,
}

// What the next byte is: a procedure byte or the first of a status; the length behind '61' or '6C'; the second byte of a
// status; data, of which so many bytes are due. Or the exchange is over.
#[derive(Clone, Copy)]
pub enum Phase {
    Procedure,
    Length61,
    Length6C,
    Status(u8),
    Data(usize),
    Over,
}

#[derive(Clone, Copy)]
pub struct State {
    pub command: Command,
    pub header: Header,
    pub counts: Counts,
    // a warning that came before GET RESPONSE, which then ends the answer in place of the last status
    pub trailer: Option<Trailer>,
    pub phase: Phase,
    // how many bytes of the answer's data have come
    pub received: usize,
}

// Why a command or a byte is turned away.
#[derive(Clone, Copy, Debug, PartialEq, Eq)]
pub enum Refusal {
    Command,
    Ins,
    Byte,
    Place,
    Many60,
    Many61,
    Many6C,
    Closed,
}

// Nothing; send the header with a length; send data of the command, from a place on, so many bytes; keep a byte of the
// answer's; or the answer is complete with this status.
#[derive(Clone, Copy)]
pub enum Act {
    Nothing,
    Header(u8),
    Send(usize, usize),
    Keep(u8),
    Answer(Trailer),
}

// The exchange afterwards, and what is then to be done, or why the byte was turned away.
#[derive(Clone, Copy)]
pub struct Turn {
    pub state: State,
    pub act: Result<Act, Refusal>,
}
