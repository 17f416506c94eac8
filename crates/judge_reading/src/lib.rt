// A tape read from an open file, a block at a time, and judged: what `judge_tape` and `lab_tapes` share. A single block is held in memory,
// however long the file is, and the file is read to its end, so that whoever writes it is not cut off. Of what is read no contract can
// speak; where it cannot be read to its end there is no verdict, and why.
#![tactic(auto)]

use judge::pieces;
use std::io;
use std::io::{ErrorKind, Read};
use tape_read::BLOCK;
use text_input::fill;
use verdict::Finding;

// More blocks than there can be: nothing says that the file ends.
const MOST: usize = 0x7FFF_FFFF_FFFF_FFFF;

// An error is one of reading the file.
pub fn judge_file(file: &mut impl Read) -> io::Result<Finding> {
    let mut block = [0u8; BLOCK];
    let mut u = pieces::begin();
    for _ in 0..MOST {
        let n = fill(file, &mut block)?;
        u = pieces::feed(u, &block[..n]);
        if n < BLOCK {
            return Ok(pieces::close(u));
        }
    }
    Err(io::Error::from(ErrorKind::FileTooLarge))
}
