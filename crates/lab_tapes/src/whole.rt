// A whole tape read from an open file into lent bytes, and judged by the quick judge. Of what is read no contract can speak; where it cannot
// be read to its end there is no verdict.
use quick_judge::judge;
use std::io;
use std::io::{ErrorKind, Read};
use tape_read::TAPE;
use text_input::fill;
use verdict::Finding;

// One byte more than the longest tape has: a file that fills it is unreadable by its length.
pub const ROOM: usize = TAPE + 1;

// More pieces than there can be: nothing says that the file ends.
const MOST: usize = 0x7FFF_FFFF_FFFF_FFFF;

// An error is one of reading the file.
pub fn judge_whole(file: &mut impl Read, tape: &mut [u8]) -> io::Result<Finding> {
    let n = fill(file, tape)?;
    let found = judge(&tape[..n]);
    if n == tape.len() {
        read_out(file, tape)?;
    }
    Ok(found)
}

// The rest of a file that is longer than any tape, so that whoever writes it is not cut off.
fn read_out(file: &mut impl Read, rest: &mut [u8]) -> io::Result<()> {
    for _ in 0..MOST {
        if fill(file, rest)? < rest.len() {
            return Ok(());
        }
    }
    Err(io::Error::from(ErrorKind::FileTooLarge))
}
