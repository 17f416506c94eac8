// An exchange, a line at a time: a command, or bytes of the card's.
ghost use Rattle.std.specs.Prelude.{◌≡◌, IfOk};
ghost use Rattle.t0_pieces.specs.Pieces.{gone, taken_all};

use crate::say::reply;
use apdu::{ANSWER_MOST, DATA_MOST};
use std::io;
use t0_begin::begin;
use t0_pieces::{is_closed, takes};
use t0_state::State;

// The exchange, with the room for what is to be sent and for the answer.
#[derive(Drop)]
pub struct Bench {
    state: State,
    out: [u8; DATA_MOST],
    answer: [u8; ANSWER_MOST],
}

impl Bench {
    // No exchange yet.
    pub fn new() -> Bench {
        let mut out = [0u8; DATA_MOST];
        let begun = begin(b"", &mut out);
        Bench {
            state: begun.state,
            out,
            answer: [0; ANSWER_MOST],
        }
    }

    pub fn command(&mut self, rt: &impl Print, command: &[u8]) -> io::Result<()> {
        let begun = begin(command, &mut self.out);
        self.state = begun.state;
        reply(rt, begun.reply, &self.out, b"")
    }

    // Piece by piece, each up to the next byte that brings something to send or ends the exchange.
    pub fn card(&mut self, rt: &impl Print, piece: &[u8]) -> io::Result<()>
        ensures { IfOk result (λ done. gone self.new.state self.new.out self.new.answer
            ≡ taken_all self.old.state piece.now self.old.out self.old.answer) }
    {
        let mut rest = piece;
        loop {
            let t = takes(self.state, rest, &mut self.out, &mut self.answer);
            self.state = t.state;
            reply(rt, t.reply, &self.out, &self.answer)?;
            if is_closed(&self.state) || rest.len() <= t.taken {
                return Ok(());
            }
            let (_, more) = rest.split_at(t.taken);
            rest = more;
        }
    }
}
