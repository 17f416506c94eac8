// A tape read piece by piece: which block is due, and what makes the tape unreadable. One piece at a time is looked at and none is kept.
#![tactic(auto)]

ghost use Rattle.std.specs.Prelude.{◌≡◌, ◌≤◌};
ghost use Rattle.tape_read.specs.Entries.{blocks_most};
ghost use Rattle.tape_feed.specs.Feeding.{begun, session_due, looked, passed as passed_by, ended as ended_by};
ghost use Rattle.tape_feed.specs.Feeding.{unread as not_read, next as next_by, too_long, damaged, damage_of};

use numbers::{CODE_LONG, CODE_TORN};
use tape_read::{BLOCK, BLOCKS, code, session};

// The blocks so far; the session number of block 0; the place and the code of the first bad block, code 0 where there is none; and
// whether the tape ended inside a block.
#[derive(Clone, Copy)]
pub struct Reader {
    pub blocks: usize,
    pub session: u32,
    pub place: usize,
    pub code: u8,
    pub torn: bool,
}

// One piece further, and whether the piece was a good block.
#[derive(Clone, Copy)]
pub struct Taken {
    pub reader: Reader,
    pub good: bool,
}

// What makes a tape unreadable; code 0: nothing does.
#[derive(Clone, Copy)]
pub struct Damage {
    pub place: usize,
    pub code: usize,
}

pub fn begin() -> Reader
    ensures { result ≡ begun }
{
    Reader {
        blocks: 0,
        session: 0,
        place: 0,
        code: 0,
        torn: false,
    }
}

fn unread(reader: Reader) -> Taken
    ensures { result ≡ not_read reader }
{
    Taken {
        reader,
        good: false,
    }
}

fn session_due(reader: Reader, block: &[u8]) -> u32
    ensures { result ≡ session_due reader block.now }
{
    if reader.blocks == 0 {
        session(block)
    } else {
        reader.session
    }
}

fn look(reader: Reader, block: &[u8]) -> Reader
    requires { reader.blocks ≤ blocks_most }
    ensures { result ≡ looked reader block.now }
{
    let due = session_due(reader, block);
    Reader {
        blocks: reader.blocks + 1,
        session: due,
        place: reader.blocks,
        code: code(block, reader.blocks, due),
        ..reader
    }
}

// A block after a bad one is counted, and nothing else.
fn passed(reader: Reader) -> Reader
    requires { reader.blocks ≤ blocks_most }
    ensures { result ≡ passed_by reader }
{
    Reader {
        blocks: reader.blocks + 1,
        ..reader
    }
}

fn ended(reader: Reader, piece: &[u8]) -> Reader
    ensures { result ≡ ended_by reader piece.now }
{
    Reader {
        torn: 0 < piece.len(),
        ..reader
    }
}

pub fn next(reader: Reader, piece: &[u8]) -> Taken
    ensures { result ≡ next_by reader piece.now }
{
    if reader.torn {
        return unread(reader);
    }
    if BLOCKS < reader.blocks {
        return unread(reader);
    }
    if piece.len() != BLOCK {
        return unread(ended(reader, piece));
    }
    if reader.code != 0 {
        return unread(passed(reader));
    }
    let after = look(reader, piece);
    let why = after.code;
    Taken {
        reader: after,
        good: why == 0,
    }
}

fn is_too_long(end: Reader) -> bool
    ensures { result ≡ too_long end }
{
    BLOCKS < end.blocks || end.blocks == BLOCKS && end.torn
}

fn at(place: usize, code: usize) -> Damage
    ensures { result ≡ damaged place code }
{
    Damage { place, code }
}

// Where the tape ends here. Codes 1 and 2 are known only now, and go before all others.
pub fn found(end: Reader) -> Damage
    ensures { result ≡ damage_of end }
{
    if is_too_long(end) {
        return at(0, CODE_LONG);
    }
    if end.torn {
        return at(end.blocks, CODE_TORN);
    }
    at(end.place, end.code as usize)
}
