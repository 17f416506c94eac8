// What a session is handed of what a transmission protocol says at the end of a command, a line each way. In, as exchange_t0 and
// exchange_t1 say it, with bytes in hexadecimal of either case:
//
//     ANSWER bytes     the answer that was put together (T=0)
//     MESSAGE bytes    the message that came in (T=1)
//     REFUSED name     the layer gave up, or turned the event away
//     END name         this end of the line stopped
//
// Out, at once for each line, as `play` takes it:
//
//     ANSWER bytes     the whole answer up to 496 bytes, of a longer one its first 259, which end the session with reason 1
//     SILENCE          where there is no answer, there is none to hand on
//     ERROR why        the line is none of these: nothing may be handed on
#![tactic(auto)]

use apdu::handed;
use slices::part;
use std::io;
use text_hex::unhex;
use text_input::{Line, read_line};
use text_lines::{after_word, word_end};

// A line with the longest answer that there is, and some bytes more.
const LONGEST: usize = 9000;

// More lines than there can be: nothing says that the input ends.
const MOST: usize = 0x7FFF_FFFF_FFFF_FFFF;

fn main(rt: HostRuntime) -> io::Result<()> {
    let mut line = [0u8; LONGEST];
    hand_all(&rt, &mut line)
}

fn hand_all(rt: &(impl Input + Print), line: &mut [u8]) -> io::Result<()> {
    for _ in 0..MOST {
        match read_line(rt, line) {
            Line::Whole(n) => hand(rt, part(line, 0, n))?,
            Line::Long => println!(rt; "ERROR line too long")?,
            Line::End => return Ok(()),
        }
    }
    Ok(())
}

fn hand(rt: &impl Print, line: &[u8]) -> io::Result<()> {
    match part(line, 0, word_end(line, 0)) {
        b"ANSWER" | b"MESSAGE" => hand_bytes(rt, after_word(line)),
        b"REFUSED" | b"END" => println!(rt; "SILENCE"),
        _ => println!(rt; "ERROR unknown word"),
    }
}

fn hand_bytes(rt: &impl Print, digits: &[u8]) -> io::Result<()> {
    let mut bytes = [0u8; 4496];
    let n = unhex(digits, &mut bytes);
    if digits.len() != 2 * n {
        return println!(rt; "ERROR not whole bytes in hexadecimal");
    }
    print!(rt; "ANSWER ")?;
    text_print::bytes(rt, handed(&bytes[..n]))?;
    println!(rt)
}
