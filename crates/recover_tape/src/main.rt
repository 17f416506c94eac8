// Every good block of the bytes on standard input, a line each, and a last line:
//
//     BLOCK step number session kind payload    the payload in hexadecimal, - for none
//     END steps tail                            the whole steps, and the bytes after the last of them
//
// A single block is held in memory, however long the input is. Nothing is printed before the input has ended: where it cannot be read,
// standard output stays empty and standard error says why.
#![tactic(auto)]

mod kept;
mod line;

use recover::{next, payload, tail};
use slices::part;
use std::fs::File;
use std::io;
use tape_read::BLOCK;
use text_input::fill;
use text_print::fail;

// More steps than there can be: nothing says that the input ends.
const MOST: usize = 0x7FFF_FFFF_FFFF_FFFF;

fn main(rt: HostRuntime) {
    let Some(mut file) = kept::open(&rt) else {
        return;
    };
    let mut block = [0u8; BLOCK];
    if list_all(&rt, &mut file, &mut block) {
        kept::say(&rt, &mut file, &mut block);
    }
}

// Whether all of the input was read, and all of its lines are kept.
fn list_all(rt: &(impl Input + Eprint), file: &mut File, block: &mut [u8]) -> bool {
    let mut input = rt.reader();
    for step in 0..MOST {
        match fill(&mut input, block) {
            Ok(BLOCK) => {
                if !is_kept(rt, keep_block(file, step, block)) {
                    return false;
                }
            }
            Ok(n) => {
                return is_kept(rt, line::end(file, step, tail(part(block, 0, n))));
            }
            Err(e) => {
                fail(rt, "recover_tape: standard input", &e);
                return false;
            }
        }
    }
    false
}

fn is_kept(rt: &impl Eprint, taken: io::Result<()>) -> bool {
    match taken {
        Ok(()) => true,
        Err(e) => {
            fail(rt, "recover_tape: a line could not be kept", &e);
            false
        }
    }
}

// The block at hand is its own step 0; the step where it stands in the input is the one that is told.
fn keep_block(file: &mut File, at: usize, block: &[u8]) -> io::Result<()> {
    let found = next(block, 0);
    match found {
        Some(good) => line::block(file, at, good, payload(block, found)),
        None => Ok(()),
    }
}
