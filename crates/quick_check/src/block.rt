// One block: its code, by a check that does not take in the zeros behind the payload.
ghost use Rattle.std.specs.Prelude.{◌≡◌, true, false, ◌-◌, ◌≤◌, length, take, drop};
ghost use Rattle.tape_crc.specs.Check.{covered, block_check_of};
ghost use Rattle.tape_read.specs.Entries.{block_size};
ghost use Rattle.tape_read.specs.Blocks.{payload_at, all_zero, check_bad, length_bad, padding_bad, code_of};

use crate::register::{Stored, after, past};
use numbers::{CODE_CHECK, CODE_KIND, CODE_NUMBER, CODE_SESSION, CODE_SPARE};
use tape_read::{CHECK_AT, PAYLOAD, PAYLOAD_AT, is_zero, kind, no_kind, number, session};

// The last value is complemented.
const ONES: u32 = 0xFFFF_FFFF;

// So many zeros are passed at a time.
const STEP: usize = 32;

// Whether the block may stand where this number and this session are due: 0, or the code of the first test that fails. A block whose
// length is not allowed, or that has another byte than zero behind its payload, is left to the plain check.
#[tactic(auto, using(crate::proofs::Fields::fields_told))]
pub fn code(block: &[u8], due_number: usize, due_session: u32, stored: Stored<'_>) -> u8
    requires { length block.now ≡ block_size }
    ensures { result ≡ code_of due_number due_session block.now }
{
    let n = slices::byte(block, 10) * 256 + slices::byte(block, 11);
    if PAYLOAD < n {
        return tape_read::code(block, due_number, due_session);
    }
    let from = PAYLOAD_AT + n;
    if is_zero(&block[from..CHECK_AT]) {
        let check = check_of(block, from, stored);
        if number(&block[CHECK_AT..]) != check {
            return CODE_CHECK;
        }
        return heading(block, due_number, due_session);
    }
    tape_read::code(block, due_number, due_session)
}

// The check of a block that has only zeros from a place on.
#[tactic(auto, using(crate::proofs::Zeros::part_taken))]
fn check_of(block: &[u8], from: usize, stored: Stored<'_>) -> u32
    requires { (length block.now ≡ block_size) × (payload_at ≤ from) × (from ≤ covered)
        × (all_zero (take (covered - from) (drop from block.now)) ≡ true) }
    ensures { result ≡ block_check_of block.now }
{
    let times = (CHECK_AT - from) / STEP;
    past(
        after(&block[..CHECK_AT - STEP * times], stored),
        times,
        stored,
    ) ^ ONES
}

// The code of a block whose check, length and padding are right.
#[tactic(auto, using(crate::proofs::Fields::tests_left), unfolding(slices::specs::Choice::pick))]
fn heading(block: &[u8], due_number: usize, due_session: u32) -> u8
    requires { (check_bad block.now ≡ false) × (length_bad block.now ≡ false) × (padding_bad block.now ≡ false) }
    ensures { result ≡ code_of due_number due_session block.now }
{
    if number(block) as usize != due_number {
        return CODE_NUMBER;
    }
    if session(block) != due_session {
        return CODE_SESSION;
    }
    if no_kind(kind(block)) {
        return CODE_KIND;
    }
    if slices::byte(block, 9) != 0 {
        return CODE_SPARE;
    }
    0
}
