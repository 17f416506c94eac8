// An exchange by T=0 over standard input and output, a line at a time. In, with bytes in hexadecimal of either case:
//
//     COMMAND bytes    an exchange begins, whatever was before
//     CARD bytes       the card's next bytes, as many as are there
//
// Out, at once for each line:
//
//     SEND bytes       to be sent to the card
//     WAIT what        what is waited for: procedure, length, sw2, or data with the number of bytes
//     ANSWER bytes     the exchange is over, and this is the whole answer
//     REFUSED name     the exchange is over, or the command was none
//     ERROR why        the line is none of these; nothing changed
//
// Bytes that stand behind the end of an exchange in the same line are not looked at.
#![tactic(auto)]

mod say;
mod turn;

use slices::part;
use std::io;
use text_hex::unhex;
use text_input::{Line, read_line};
use text_lines::{after_word, word_end};
use turn::Bench;

// A line with 16,384 bytes.
const LONGEST: usize = 32_800;

// More lines than there can be: nothing says that the input ends.
const MOST: usize = 0x7FFF_FFFF_FFFF_FFFF;

// What a line tells of.
#[derive(Clone, Copy)]
enum Event {
    Command,
    Card,
}

fn main(rt: HostRuntime) -> io::Result<()> {
    let mut line = [0u8; LONGEST];
    let mut bench = Bench::new();
    exchange(&rt, &mut line, &mut bench)
}

fn exchange(rt: &(impl Input + Print), line: &mut [u8], bench: &mut Bench) -> io::Result<()> {
    for _ in 0..MOST {
        match read_line(rt, line) {
            Line::Whole(n) => said(rt, part(line, 0, n), bench)?,
            Line::Long => println!(rt; "ERROR line too long")?,
            Line::End => return Ok(()),
        }
    }
    Ok(())
}

fn said(rt: &impl Print, line: &[u8], bench: &mut Bench) -> io::Result<()> {
    let event = match part(line, 0, word_end(line, 0)) {
        b"COMMAND" => Event::Command,
        b"CARD" => Event::Card,
        _ => return println!(rt; "ERROR unknown word"),
    };
    let mut room = [0u8; 16384];
    let Some(bytes) = unhexed(after_word(line), &mut room) else {
        return println!(rt; "ERROR not hexadecimal");
    };
    match event {
        Event::Command => bench.command(rt, bytes),
        Event::Card => bench.card(rt, bytes),
    }
}

// Bytes by their digits, where these are whole pairs.
fn unhexed<'a>(digits: &[u8], room: &'a mut [u8; 16384]) -> Option<&'a [u8]> {
    let n = unhex(digits, room);
    if digits.len() == 2 * n {
        Some(&room[..n])
    } else {
        None
    }
}
