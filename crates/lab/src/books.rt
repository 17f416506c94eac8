// The campaign book: reopened, and an entry handed in.
ghost use Rattle.std.specs.Prelude.{◌≡◌};
ghost use Rattle.book_block.specs.Entries.{made};
ghost use Rattle.book.specs.Entering.{reply_of, bytes_after};
ghost use Rattle.book_open.specs.Reopening.{read_book, opening_of};
ghost use Rattle.lab.specs.Books.{fault_in, laid_end, reply_number, book_at};

use book::{Book, Refusal};
use book_block::Entry;
use book_open::reopen;

// Any bytes reopened. 0: the blocks used and the four counts, PASS, FAIL, INCONCLUSIVE, UNREADABLE. Else the fault, and the block first.
#[tactic(auto, unfolding(crate::specs::Books::fault_in, crate::specs::Books::laid_end))]
pub fn lab_book_open(bytes: &[u8], end: &mut [u64; 5]) -> u8
    ensures value { result ≡ fault_in (opening_of (read_book bytes.now)) }
    ensures end_after { end.new ≡ laid_end (opening_of (read_book bytes.now)) }
{
    match reopen(bytes) {
        Ok(book) => {
            *end = [
                book.used as u64,
                book.pass as u64,
                book.fail as u64,
                book.inconclusive as u64,
                book.unreadable as u64,
            ];
            0
        }
        Err(refused) => {
            *end = [refused.place as u64, 0, 0, 0, 0];
            refused.fault.number()
        }
    }
}

// An entry handed in to a book that has so many blocks used: 0 entered, 1 no verdict, 2 already entered, 3 full.
pub fn lab_book_enter(
    used: u32,
    tape: u32,
    verdict: u8,
    place: u32,
    code: u32,
    bytes: &mut [u8],
) -> u8
    ensures value { result ≡ reply_number (reply_of used (made tape verdict place code) bytes.old) }
    ensures bytes_after { bytes.new ≡ bytes_after (book_at used) (made tape verdict place code) bytes.old }
{
    let mut book = Book {
        used,
        pass: 0,
        fail: 0,
        inconclusive: 0,
        unreadable: 0,
    };
    let e = Entry {
        tape,
        verdict,
        place,
        code,
    };
    reply_number(book.enter(e, bytes))
}

// As C is told it.
#[tactic(auto, unfolding(crate::specs::Books::reply_number))]
fn reply_number(reply: Result<(), Refusal>) -> u8
    ensures { result ≡ reply_number reply }
{
    match reply {
        Ok(()) => 0,
        Err(Refusal::NoVerdict) => 1,
        Err(Refusal::AlreadyEntered) => 2,
        Err(Refusal::Full) => 3,
    }
}
