// Reads answers to reset, a line of standard input each, and says what each tells or which rules it breaks. In, with the captured
// bytes in hexadecimal of either case (for a card of the inverse convention these are line bytes, the first of them 03):
//
//     COLD bytes    the answer to a cold reset
//     WARM bytes    the answer to a warm reset
//
// Out, at once for each line:
//
//     ACCEPTED convention protocol mode parameters historical=start..end:bytes     (and data=bytes under the inverse convention)
//     REFUSED rule@place ..                                                        (in the order of the characters)
//     ERROR why                                                                    (the line is neither)
#![tactic(auto)]

mod names;
mod report;

use report::report;
use slices::part;
use std::io;
use text_hex::unhex;
use text_input::{Line, read_line};
use text_lines::{after_word, word_end};

// A line of the longest capture that is taken: the word, a space and the digits of 4,096 bytes.
const LONGEST: usize = 8197;

fn main(rt: HostRuntime) -> io::Result<()> {
    let mut line = [0u8; LONGEST];
    read_all(&rt, &mut line)
}

// More lines than there can be, since nothing says that the input ends.
const MOST: usize = 0x7FFF_FFFF_FFFF_FFFF;

fn read_all(rt: &(impl Input + Print), line: &mut [u8]) -> io::Result<()> {
    for _ in 0..MOST {
        match read_line(rt, line) {
            Line::Whole(n) => answer(rt, part(line, 0, n))?,
            Line::Long => print!(rt; "ERROR line too long\n")?,
            Line::End => return Ok(()),
        }
    }
    Ok(())
}

fn answer(rt: &impl Print, line: &[u8]) -> io::Result<()> {
    match part(line, 0, word_end(line, 0)) {
        b"COLD" => captured(rt, after_word(line), false),
        b"WARM" => captured(rt, after_word(line), true),
        _ => print!(rt; "ERROR unknown word\n"),
    }
}

fn captured(rt: &impl Print, digits: &[u8], warm: bool) -> io::Result<()> {
    let mut bytes = [0u8; 4096];
    let n = unhex(digits, &mut bytes);
    if digits.len() != 2 * n {
        return print!(rt; "ERROR not whole bytes in hexadecimal\n");
    }
    report(rt, &bytes[..n], warm)
}
