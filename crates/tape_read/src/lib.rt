// The tape: entries in blocks of 512 bytes, read from any bytes.
#![tactic(auto)]

mod read;

ghost use Rattle.std.specs.Prelude.{◌≡◌, not};
ghost use Rattle.numbers.specs.Tables.{is_kind};
ghost use Rattle.tape_read.specs.Numbers.{bytes_of};

use numbers::{LAST_KIND, START};
pub use read::{block_at, code, is_zero, kind, number, payload, session};

// The limits: the bytes of a block, the blocks of a tape and its bytes, the bytes of a payload.
pub const BLOCK: usize = 512;

pub const BLOCKS: usize = 1024;

pub const TAPE: usize = BLOCKS * BLOCK;

pub const PAYLOAD: usize = 496;

// Where a block's payload starts, and its check.
pub const PAYLOAD_AT: usize = 12;

pub const CHECK_AT: usize = 508;

// Whether a number is none of the kinds.
pub fn no_kind(k: u8) -> bool
    ensures { result ≡ not (is_kind k) }
{
    k < START || LAST_KIND < k
}

// A number as it stands in a block, its highest byte first.
pub fn four_bytes(n: u32) -> [u8; 4]
    ensures { result ≡ bytes_of 4 n }
{
    n.to_be_bytes()
}
