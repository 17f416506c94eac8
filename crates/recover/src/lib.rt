// What is left of a damaged tape: the good blocks of any bytes, one after the other, in steps of a block from the start. A block is
// tested as `tape_read` tests it where its own number and session number are the ones due.
#![tactic(auto)]

ghost use Rattle.std.specs.Prelude.{◌≡◌, ◌/◌, ◌<◌, length};
ghost use Rattle.tape_read.specs.Entries.{block_size};
ghost use Rattle.tape_read.specs.Tapes.{block_at};
ghost use Rattle.recover.specs.Salvage.{is_good, told, next_from, payload_of, tail_of};

use slices::part;
use tape_read::{BLOCK, PAYLOAD_AT, block_at, code, kind, number, session};

// A good block: the step it stands at, what it says of itself, and where in the lent bytes its payload starts and how long it is.
#[derive(Clone, Copy)]
pub struct Block {
    pub step: usize,
    pub number: u32,
    pub session: u32,
    pub kind: u8,
    pub start: usize,
    pub size: usize,
}

// The next good block at or after a step, where there is one.
#[tactic(auto, using(crate::proofs::Walk::next_end, crate::proofs::Walk::next_here, crate::proofs::Walk::next_on))]
pub fn next(bytes: &[u8], step: usize) -> Option<Block>
    ensures { result ≡ next_from bytes.now step }
{
    for k in step..bytes.len() / BLOCK {
        if is_good(block_at(bytes, k)) {
            return Some(tell(bytes, k));
        }
    }
    None
}

// The payload of what was found, as that part of the lent bytes itself; nothing where nothing was found.
pub fn payload(bytes: &[u8], found: Option<Block>) -> &[u8]
    ensures { result.now ≡ payload_of bytes.now found }
{
    match found {
        Some(block) => part(bytes, block.start, block.size),
        None => &bytes[..0],
    }
}

// The bytes after the last whole step.
pub fn tail(bytes: &[u8]) -> usize
    ensures { result ≡ tail_of bytes.now }
{
    bytes.len() % BLOCK
}

#[tactic(auto, using(crate::proofs::Own::good_by_code))]
fn is_good(block: &[u8]) -> bool
    ensures { result ≡ is_good block.now }
{
    code(block, number(block) as usize, session(block)) == 0
}

fn tell(bytes: &[u8], step: usize) -> Block
    requires { step < length bytes.now / block_size }
    ensures { result ≡ told step (block_at step bytes.now) }
{
    let block = block_at(bytes, step);
    Block {
        step,
        number: number(block),
        session: session(block),
        kind: kind(block),
        start: step * BLOCK + PAYLOAD_AT,
        size: tape_read::payload(block).len(),
    }
}
