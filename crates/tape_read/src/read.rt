// What a block says, and whether it may be believed. A byte past the end of a block counts as 0.
ghost use Rattle.std.specs.Prelude.{◌≡◌, ◌≤◌, ◌<◌, ◌+◌, ◌-◌};
ghost use Rattle.slices.specs.Choice.{first_of};
ghost use Rattle.tape_crc.specs.Check.{covered};
ghost use Rattle.tape_read.specs.Entries.{block_size};
ghost use Rattle.tape_read.specs.Blocks.{window, field, number_in, session_in, kind_in};
ghost use Rattle.tape_read.specs.Blocks.{length_in, all_zero, content_tests, code_of, payload_in};
ghost use Rattle.tape_read.specs.Tapes.{block_at};

use crate::{BLOCK, CHECK_AT, PAYLOAD, PAYLOAD_AT, no_kind};
use numbers::{
    CODE_CHECK, CODE_KIND, CODE_LENGTH, CODE_NUMBER, CODE_PADDING, CODE_SESSION, CODE_SPARE,
};
use slices::part;

// The block at an index of a tape.
pub fn block_at(tape: &[u8], index: usize) -> &[u8]
    ensures { result.now ≡ block_at index tape.now }
{
    if tape.len() / BLOCK < index {
        return &tape[..0];
    }
    part(tape, index * BLOCK, BLOCK)
}

// The fields of a block.
pub fn number(block: &[u8]) -> u32
    ensures { result ≡ number_in block.now }
{
    long_at(block, 0)
}

pub fn session(block: &[u8]) -> u32
    ensures { result ≡ session_in block.now }
{
    long_at(block, 4)
}

pub fn kind(block: &[u8]) -> u8
    ensures { result ≡ kind_in block.now }
{
    slices::byte(block, 8) as u8
}

// The payload, as that part of the block itself; nothing where its length is not allowed.
pub fn payload(block: &[u8]) -> &[u8]
    ensures { result.now ≡ payload_in block.now }
{
    let n = payload_length(block);
    if PAYLOAD < n {
        return &block[..0];
    }
    part(block, PAYLOAD_AT, n)
}

// Whether the block may stand where this number and this session are due: 0, or the code of the first test that fails.
pub fn code(block: &[u8], due_number: usize, due_session: u32) -> u8
    ensures { result ≡ code_of due_number due_session block.now }
{
    if long_at(block, CHECK_AT) != tape_crc::of_block(block) {
        return CODE_CHECK;
    }
    if number(block) as usize != due_number {
        return CODE_NUMBER;
    }
    if session(block) != due_session {
        return CODE_SESSION;
    }
    content_code(block)
}

// The same of the tests that need only the block's content.
fn content_code(block: &[u8]) -> u8
    ensures { result ≡ first_of (content_tests block.now) }
{
    if no_kind(kind(block)) {
        return CODE_KIND;
    }
    if slices::byte(block, 9) != 0 {
        return CODE_SPARE;
    }
    let n = payload_length(block);
    if PAYLOAD < n {
        return CODE_LENGTH;
    }
    if zeros_from(block, PAYLOAD_AT + n) {
        0
    } else {
        CODE_PADDING
    }
}

fn payload_length(block: &[u8]) -> usize
    ensures { (result ≡ length_in block.now) × (result < 65536) }
{
    short_at(block, 10)
}

// Whether there are only zeros from a place on, up to the check.
fn zeros_from(block: &[u8], from: usize) -> bool
    requires { from ≤ covered }
    ensures { result ≡ all_zero (window (covered - from) from block.now) }
{
    is_zero(part(block, from, CHECK_AT - from))
}

// Whether there are only zeros. Every byte is taken and one test made at the end, which compiles to many bytes at a time.
pub fn is_zero(s: &[u8]) -> bool
    ensures { result ≡ all_zero s.now }
{
    let mut bits = 0u8;
    for b in s {
        bits |= *b;
    }
    bits == 0
}

// Two bytes as a number.
fn short_at(s: &[u8], at: usize) -> usize
    requires { at ≤ block_size + 2 }
    ensures { (result ≡ field at 2 s.now) × (result < 65536) }
{
    slices::byte(s, at) * 256 + slices::byte(s, at + 1)
}

// Four bytes as a number.
fn long_at(s: &[u8], at: usize) -> u32
    requires { at ≤ block_size }
    ensures { result ≡ field at 4 s.now }
{
    (short_at(s, at) * 65536 + short_at(s, at + 2)) as u32
}
