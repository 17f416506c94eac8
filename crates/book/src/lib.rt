// The campaign book: what the judge said of each tape, entered one block after the other, and counted.
#![tactic(auto)]

ghost use Rattle.std.specs.Prelude.{◌≡◌};
ghost use Rattle.book.specs.Counting.{empty, counted, raised, one_more, total_of};
ghost use Rattle.book.specs.Entering.{entered, stored, reply_of, book_after, bytes_after};

use book_block::{Entry, FAIL, INCONCLUSIVE, PASS, UNREADABLE, block_of, no_verdict, tape_in};
use slices::lay;
use std::fmt;
use tape_read::{BLOCK, block_at};

// At most so many entries to a book.
pub const ENTRIES: u32 = 4096;

// The end of a book: how many of its blocks are used, and how many tapes were entered with each verdict.
#[derive(Clone, Copy)]
pub struct Book {
    pub used: u32,
    pub pass: u32,
    pub fail: u32,
    pub inconclusive: u32,
    pub unreadable: u32,
}

// Why an entry that is handed in is refused: the first of these that applies.
#[derive(Clone, Copy, PartialEq, Eq)]
pub enum Refusal {
    NoVerdict,
    AlreadyEntered,
    Full,
}

impl fmt::Display for Refusal {
    fn fmt<W: fmt::Write>(&self, f: &mut fmt::Formatter<W>) -> fmt::Result {
        f.write_str(match self {
            Refusal::NoVerdict => "no verdict",
            Refusal::AlreadyEntered => "already entered",
            Refusal::Full => "full",
        })
    }
}

impl Book {
    // The end of an empty book.
    pub fn new() -> Self
        ensures { result ≡ empty }
    {
        Self {
            used: 0,
            pass: 0,
            fail: 0,
            inconclusive: 0,
            unreadable: 0,
        }
    }

    // The four counts together.
    pub fn total(self) -> usize
        ensures { result ≡ total_of self }
    {
        self.pass as usize
            + self.fail as usize
            + self.inconclusive as usize
            + self.unreadable as usize
    }

    // One block more, and one tape more with this verdict.
    #[tactic(auto, unfolding(crate::specs::Counting::counted))]
    pub fn count(self, verdict: u8) -> Self
        ensures { result ≡ counted verdict self }
    {
        let used = one_more(self.used);
        let pass = raise(verdict, PASS, self.pass);
        let fail = raise(verdict, FAIL, self.fail);
        let inconclusive = raise(verdict, INCONCLUSIVE, self.inconclusive);
        let unreadable = raise(verdict, UNREADABLE, self.unreadable);
        Self {
            used,
            pass,
            fail,
            inconclusive,
            unreadable,
        }
    }

    // One entry more: its block goes after those used, or the entry is refused and nothing changes.
    pub fn enter(&mut self, e: Entry, bytes: &mut [u8]) -> Result<(), Refusal>
        ensures reply { result ≡ reply_of self.old.used e bytes.old }
        ensures book_after { self.new ≡ book_after self.old e bytes.old }
        ensures bytes_after { bytes.new ≡ bytes_after self.old e bytes.old }
    {
        let used = self.used;
        reply_to(used, e, bytes)?;
        lay(bytes, used as usize * BLOCK, &block_of(used, e));
        *self = self.count(e.verdict);
        Ok(())
    }
}

// The refusals in their order, after so many blocks used.
#[tactic(auto, unfolding(crate::specs::Entering::reply_of, crate::specs::Entering::reply_to, slices::specs::Choice::pick))]
fn reply_to(used: u32, e: Entry, bytes: &[u8]) -> Result<(), Refusal>
    ensures { result ≡ reply_of used e bytes.now }
{
    if no_verdict(e.verdict) {
        return Err(Refusal::NoVerdict);
    }
    let blocks = used as usize;
    if holds(bytes, blocks, e.tape) {
        return Err(Refusal::AlreadyEntered);
    }
    if ENTRIES <= used || bytes.len() < blocks * BLOCK + BLOCK {
        return Err(Refusal::Full);
    }
    Ok(())
}

// Whether a tape number stands in one of the blocks used, of which those are asked that are there.
pub fn holds(bytes: &[u8], used: usize, tape: u32) -> bool
    ensures { result ≡ entered tape (stored used bytes.now) }
{
    let n = used.min(bytes.len() / BLOCK);
    for k in 0..n {
        if tape_in(block_at(bytes, k)) == tape {
            return true;
        }
    }
    false
}

// A number of blocks or tapes raised by one; none is above what a book can hold.
#[tactic(auto, unfolding(crate::specs::Counting::one_more, slices::specs::Choice::pick))]
fn one_more(n: u32) -> u32
    ensures { result ≡ one_more n }
{
    if n < ENTRIES { n + 1 } else { n }
}

// The count of one verdict, where this one is entered.
#[tactic(auto, unfolding(crate::specs::Counting::raised, slices::specs::Choice::pick))]
fn raise(verdict: u8, mine: u8, count: u32) -> u32
    ensures { result ≡ raised verdict mine count }
{
    if verdict == mine {
        one_more(count)
    } else {
        count
    }
}
