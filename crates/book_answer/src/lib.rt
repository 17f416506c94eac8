// The judge's answer as an entry of the campaign book.
#![tactic(auto)]

ghost use Rattle.std.specs.Prelude.{◌≡◌};
ghost use Rattle.book_answer.specs.Answers.{verdict_number, entry_of};

use book_block::{Entry, FAIL, INCONCLUSIVE, PASS, UNREADABLE};
use verdict::{Ruling, Verdict};

// A number of four bytes is below this.
const LONG: usize = 0x1_0000_0000;

// What is entered for a tape under its number, where the judge answers so.
#[tactic(auto, unfolding(crate::specs::Answers::entry_of))]
pub fn entry_of(tape: u32, ruling: Ruling) -> Entry
    ensures { result ≡ entry_of tape ruling }
{
    Entry {
        tape,
        verdict: verdict_number(ruling.verdict),
        place: (ruling.place % LONG) as u32,
        code: (ruling.code % LONG) as u32,
    }
}

// The number of a verdict, as a block of the book has it. A verdict knows nothing of books, so this is no `From` beside its type.
#[tactic(auto, unfolding(crate::specs::Answers::verdict_number))]
pub fn verdict_number(verdict: Verdict) -> u8
    ensures { result ≡ verdict_number verdict }
{
    match verdict {
        Verdict::Pass => PASS,
        Verdict::Fail => FAIL,
        Verdict::Inconclusive => INCONCLUSIVE,
        Verdict::Unreadable => UNREADABLE,
    }
}
