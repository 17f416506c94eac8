// A tape judged and made an entry of the campaign book, above the judge and from its promise alone.
#![tactic(auto)]

ghost use Rattle.book_judged.specs.Judging.{EnteredFor};

use book_answer::entry_of;
use book_block::Entry;
use judge::judge;

// What is entered for a tape under a number: what the judge says of it.
pub fn judged(number: u32, tape: &[u8]) -> Entry
    ensures { EnteredFor number tape.now result }
{
    let found = judge(tape);
    let ruling = found.ruling;
    entry_of(number, ruling)
}
