// Books kept and reopened, a line of standard input at a time. In, with numbers in hexadecimal:
//
//     BOOK room                        an empty book, in so many lent bytes
//     ENTER tape verdict place code    one entry
//     RUN tape verdict count           so many entries: tape numbers counted up, places from 0 to 999 in turn, code 0
//     STORED                           what the book holds
//     PART from to                     these bytes of what is stored are added to the bytes that will be reopened
//     ZEROS count                      so many zeros are added
//     HEX bytes                        these are added
//     OPEN                             the bytes put together are reopened, and are none afterwards
//
// Out: for ENTER and RUN the (last) reply and the four counts with their sum; for STORED the blocks used, the CRC-32 of their bytes and
// that of the rest of the room; for OPEN the blocks and the counts, or the block and the number of the fault.
#![tactic(auto)]

mod desk;

use desk::{Desk, ROOM, four};
use slices::part;
use std::io;
use text_input::{Line, read_line};
use text_lines::{after_word, word_end};

// A line with a block in hexadecimal.
const LONGEST: usize = 1100;

fn main(rt: HostRuntime) -> io::Result<()> {
    let mut line = [0u8; LONGEST];
    let mut stored = [0u8; ROOM];
    let mut bytes = [0u8; ROOM];
    run(&rt, &mut line, &mut stored, &mut bytes)
}

// The buffers are lent as arrays here, so that no proof looks at their zeros. The lines are counted up to more than there can be, since
// nothing says that the input ends.
fn run(
    rt: &(impl Input + Print),
    line: &mut [u8; LONGEST],
    stored: &mut [u8; ROOM],
    bytes: &mut [u8; ROOM],
) -> io::Result<()> {
    let mut desk = Desk::new(0);
    for _ in 0..u64::MAX {
        match read_line(rt, line) {
            Line::Whole(n) => said(rt, &mut desk, part(line, 0, n), stored, bytes)?,
            Line::Long => println!(rt; "ERROR line too long")?,
            Line::End => return Ok(()),
        }
    }
    Ok(())
}

fn said(
    rt: &impl Print,
    desk: &mut Desk,
    line: &[u8],
    stored: &mut [u8],
    bytes: &mut [u8],
) -> io::Result<()> {
    let rest = after_word(line);
    match part(line, 0, word_end(line, 0)) {
        b"BOOK" => desk.begin(four(rest)[0], stored),
        b"ENTER" => desk.enter(rt, four(rest), stored)?,
        b"RUN" => desk.run(rt, four(rest), stored)?,
        b"STORED" => desk.tell(rt, stored)?,
        b"PART" => desk.add_part(four(rest), stored, bytes),
        b"ZEROS" => desk.add_zeros(four(rest)[0], bytes),
        b"HEX" => desk.add_hex(rest, bytes),
        b"OPEN" => desk.open(rt, bytes)?,
        _ => println!(rt; "ERROR unknown word")?,
    }
    Ok(())
}
