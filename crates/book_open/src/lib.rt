// A campaign book reopened from any bytes: its end as it was, or the block at which the bytes are refused, and why.
#![tactic(auto)]

ghost use Rattle.std.specs.Prelude.{◌≡◌, ◌≤◌, ◌*◌, ◌+◌, length};
ghost use Rattle.tape_read.specs.Entries.{block_size};
ghost use Rattle.tape_read.specs.Tapes.{block_at};
ghost use Rattle.book.specs.Entering.{entries_in};
ghost use Rattle.book_open.specs.Reopening.{fault_after, read_book, opening_of};

use book::{Book, ENTRIES, holds};
use book_block::{Fault, entry_in, fault_of, tape_in};
use tape_read::{BLOCK, block_at};

// The most bytes of a book.
pub const MOST: usize = ENTRIES as usize * BLOCK;

// Where bytes are no book: the block, and what is wrong.
#[derive(Clone, Copy, PartialEq, Eq)]
pub struct Refused {
    pub place: usize,
    pub fault: Fault,
}

// Any bytes, read block by block.
pub fn reopen(bytes: &[u8]) -> Result<Book, Refused>
    ensures { result ≡ opening_of (read_book bytes.now) }
{
    if MOST < bytes.len() {
        return Err(Refused {
            place: 0,
            fault: Fault::TooLong,
        });
    }
    let blocks = bytes.len() / BLOCK;
    if bytes.len() % BLOCK != 0 {
        return Err(Refused {
            place: blocks,
            fault: Fault::Torn,
        });
    }
    let mut book = Book::new();
    for k in 0..blocks {
        if let Some(fault) = fault_at(bytes, k) {
            return Err(Refused { place: k, fault });
        }
        book = book.count(entry_in(block_at(bytes, k)).verdict);
    }
    Ok(book)
}

// The fault of a block that is there, after those before it.
#[tactic(auto, using(crate::proofs::Faults::fault_there))]
fn fault_at(bytes: &[u8], k: usize) -> Option<Fault>
    requires { (k + 1) * block_size ≤ length bytes.now }
    ensures { result ≡ fault_after (entries_in k bytes.now) (block_at k bytes.now) }
{
    let block = block_at(bytes, k);
    fault_of(block, k).or_else(|| holds(bytes, k, tape_in(block)).then_some(Fault::Twice))
}
