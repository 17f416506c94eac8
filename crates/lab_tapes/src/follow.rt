// A tape followed entry by entry, and what is due at each said before the entry is read.
use crate::say::say;
use commands::write::LONGEST;
use judge::{UnderWay, pieces};
use judge_due::{DueNext, due};
use numbers::{COMMAND, DECISION};
use slices::part;
use std::io;
use std::io::Read;
use tape_read::BLOCK;
use text_hex::hex;
use text_input::fill;
use verdict::Finding;

// More blocks than there can be: nothing says that the file ends.
const MOST: usize = 0x7FFF_FFFF_FFFF_FFFF;

// The file to its end, and what was found; none where a read failed. A line for each entry up to a place; an error is one of writing them.
pub fn follow_file(
    rt: &impl Print,
    file: &mut impl Read,
    place: usize,
) -> io::Result<Option<Finding>> {
    let mut block = [0u8; BLOCK];
    let mut u = pieces::begin();
    for _ in 0..MOST {
        tell_due(rt, u, place)?;
        let Ok(n) = fill(file, &mut block) else {
            return Ok(None);
        };
        u = pieces::feed(u, &block[..n]);
        if n < BLOCK {
            return Ok(Some(pieces::close(u)));
        }
    }
    Ok(None)
}

// DUE, the entry's number, and what is due.
fn tell_due(rt: &impl Print, u: UnderWay, place: usize) -> io::Result<()> {
    let index = u.reader.blocks;
    if place < index {
        return Ok(());
    }
    let mut bytes = [0u8; LONGEST];
    let next = due(u, &mut bytes);
    print!(rt; "DUE {index} ")?;
    match next {
        Some(next) => tell_next(rt, next, &bytes),
        None => rt.write_all(b"NOTHING\n"),
    }
}

// The word for what is due, and its bytes where they are known; how many are wanted where that is counted.
fn tell_next(rt: &impl Print, next: DueNext, bytes: &[u8]) -> io::Result<()> {
    let kind = next.kind;
    let size = next.size;
    let mut name = [0u8; text_kinds::LONGEST];
    let n = text_kinds::word(kind, &mut name);
    rt.write_all(part(&name, 0, n))?;
    match kind {
        COMMAND | DECISION => with_bytes(rt, part(bytes, 0, size)),
        _ if text_kinds::counts(kind) => println!(rt; " {size}"),
        _ => rt.write_all(b"\n"),
    }
}

fn with_bytes(rt: &impl Print, s: &[u8]) -> io::Result<()> {
    let mut digits = [0u8; 2 * LONGEST];
    let n = hex(s, &mut digits);
    say(rt, b" ", part(&digits, 0, n))
}
