// One end of a T=1 line over standard input and output, a line at a time. In, with bytes in hexadecimal of either case and numbers
// in decimal:
//
//     TERMINAL ifs            a terminal at the beginning, whose card takes fields of so many bytes
//     CARD ifs own            a card at the beginning: what the terminal takes, and what it takes itself
//     HELLO                   the terminal's first request
//     SEND bytes              a command, or the card's answer
//     ASK IFS value           a card asks for another size of its own
//     ASK WTX value           a card asks for more time
//     BLOCK bytes             a block came
//     SILENCE                 no block came in time
//     TEST ifs bytes          is this a valid block for an end that takes so many bytes
//     CUT ifs number bytes    a message as chained blocks from that number on
//
// Out, at once for each line but the last two: in this order those that apply, and STATE always.
//
//     INF from to             that part of the block was taken
//     SEND bytes              a block goes out
//     MESSAGE bytes           the message that came in is whole
//     END name                this end stopped: LIMIT, ABORT or SILENCE
//     REFUSED name            nothing changed: CLOSED, NOT-DUE, MESSAGE or VALUE
//     STATE phase next expected theirs ours
//
// TEST is answered by VALID and what the block says, or by INVALID with the code and the name of the test; CUT by a line SEND for each
// block. ERROR why answers any other line; nothing changes.
#![tactic(auto)]

mod asked;
mod blocks;
mod events;
mod say;

use asked::{Asked, MOST, asked_by};
use events::Exchange;
use slices::part;
use std::io;
use text_input::{Line, read_line};

// A line with 8,192 bytes.
const LINE: usize = 16_500;

// There are fewer lines than the count, but nothing says that the input ends.
fn main(rt: HostRuntime) -> io::Result<()> {
    let mut line = [0u8; LINE];
    let mut exchange = Exchange::begun();
    for _ in 0..u64::MAX {
        match read_line(&rt, &mut line) {
            Line::Whole(n) => said(&rt, &mut exchange, part(&line, 0, n))?,
            Line::Long => println!(rt; "ERROR line too long")?,
            Line::End => return Ok(()),
        }
    }
    Ok(())
}

fn said(rt: &impl Print, exchange: &mut Exchange, line: &[u8]) -> io::Result<()> {
    let mut bytes = [0u8; MOST];
    match asked_by(line, &mut bytes) {
        Ok(Asked::Happens(event)) => exchange.told(rt, event),
        Ok(Asked::Test { most, block }) => blocks::test(rt, block, most),
        Ok(Asked::Cut(cut)) => blocks::cut(rt, &cut, &mut exchange.out),
        Err(why) => println!(rt; "ERROR {why}"),
    }
}
