// A block tested, and a message cut into blocks.
use crate::asked::Cut;
use crate::say;
use apdu::ANSWER_MOST;
use slices::byte;
use std::io;
use t1::{Step, fresh, receive, send};
use t1_block::{Kind, LONGEST, information, pcb_of_r, tested};
use t1_state::{Phase, Role, State};

// More blocks than any message is cut into.
const BLOCKS: usize = 4355;

pub fn test(rt: &impl Print, block: &[u8], most: u8) -> io::Result<()> {
    match tested(block, most) {
        Ok(kind) => valid(rt, block, kind),
        Err(fault) => {
            let code = fault.code();
            println!(rt; "INVALID {code} {fault}")
        }
    }
}

fn valid(rt: &impl Print, block: &[u8], kind: Kind) -> io::Result<()> {
    print!(rt; "VALID ")?;
    match kind {
        Kind::Information(number, more) => {
            let number = u8::from(number);
            let more = u8::from(more);
            print!(rt; "I {number} {more} ")?;
        }
        Kind::Ready(number) => {
            let number = u8::from(number);
            let code = byte(block, 1) % 16;
            print!(rt; "R {number} {code} ")?;
        }
        Kind::Request(what) => print!(rt; "S {what} request ")?,
        Kind::Response(what) => print!(rt; "S {what} response ")?,
    }
    say::field(rt, information(block).len())
}

// The blocks of a terminal that sends the message to a card that acknowledges each, by R-blocks for the next number, until the last
// piece is out.
pub fn cut(rt: &impl Print, asked: &Cut<'_>, out: &mut [u8; LONGEST]) -> io::Result<()> {
    let none = [0u8; ANSWER_MOST];
    let s = fresh(Role::Terminal, asked.theirs, 254);
    let s = s.at_phase(Phase::Due).with_numbers(asked.second, false);
    let mut step = send(s, asked.message, out);
    for _ in 0..BLOCKS {
        say::reply(rt, step.reply, out, &none)?;
        if !step.state.message.has_more() {
            return Ok(());
        }
        step = acknowledge(step.state, out);
    }
    Ok(())
}

fn acknowledge(s: State, out: &mut [u8; LONGEST]) -> Step {
    let pcb = pcb_of_r(s.numbers.next, 0);
    let mut none = [0u8; ANSWER_MOST];
    receive(s, &[0, pcb, 0, pcb], out, &mut none)
}
