// One block of the campaign book: an entry as 512 bytes, and what any bytes hold.
#![tactic(auto)]

ghost use Rattle.std.specs.Prelude.{◌≡◌, not};
ghost use Rattle.tape_read.specs.Blocks.{field};
ghost use Rattle.book_block.specs.Entries.{is_verdict};
ghost use Rattle.book_block.specs.Blocks.{head, block, tape_in, entry_in, zeros_bad, fault_of, fault_number};

use slices::{alike, lay, part};
use std::fmt;
use tape_read::{BLOCK, CHECK_AT, four_bytes, kind, number, session};

// The verdicts as numbers.
pub const PASS: u8 = 1;

pub const FAIL: u8 = 2;

pub const INCONCLUSIVE: u8 = 3;

pub const UNREADABLE: u8 = 4;

// Why bytes are no book, in the order of their numbers: more blocks than a book can have, a length that is not whole blocks; of a block
// its check, its number, its verdict, a byte where zeros belong; and a tape number twice.
#[derive(Clone, Copy, PartialEq, Eq)]
pub enum Fault {
    TooLong = 1,
    Torn,
    BadCheck,
    BadNumber,
    BadVerdict,
    BadZeros,
    Twice,
}

impl Fault {
    #[tactic(auto, unfolding(crate::specs::Blocks::fault_number))]
    pub fn number(self) -> u8
        ensures { result ≡ fault_number self }
    {
        self as u8
    }
}

impl fmt::Display for Fault {
    fn fmt<W: fmt::Write>(&self, f: &mut fmt::Formatter<W>) -> fmt::Result {
        f.write_str(match self {
            Fault::TooLong => "too long",
            Fault::Torn => "torn",
            Fault::BadCheck => "check",
            Fault::BadNumber => "number",
            Fault::BadVerdict => "verdict",
            Fault::BadZeros => "zeros",
            Fault::Twice => "twice",
        })
    }
}

// Where the zeros stand, and how many: behind the verdict, and behind the code up to the check.
const SPARE_AT: usize = 9;

const SPARE: usize = 3;

const PADDING_AT: usize = 20;

const PADDING: usize = CHECK_AT - PADDING_AT;

// What one block holds: the number of a tape, and what the judge said of it.
#[derive(Clone, Copy)]
pub struct Entry {
    pub tape: u32,
    // Any byte can stand in a block, and the C interface takes any: the book refuses what is none of the four.
    pub verdict: u8,
    pub place: u32,
    pub code: u32,
}

// Whether a number is none of the four verdicts.
#[tactic(auto, unfolding(crate::specs::Entries::is_verdict))]
pub fn no_verdict(v: u8) -> bool
    ensures { result ≡ not (is_verdict v) }
{
    !(PASS..=UNREADABLE).contains(&v)
}

// The tape number of a block, where a tape's own block has its session number; a byte past the end of a block counts as 0.
pub fn tape_in(b: &[u8]) -> u32
    ensures { result ≡ tape_in b.now }
{
    session(b)
}

// The entry that a block holds.
#[tactic(auto, unfolding(crate::specs::Blocks::entry_in))]
pub fn entry_in(b: &[u8]) -> Entry
    ensures { result ≡ entry_in b.now }
{
    Entry {
        tape: tape_in(b),
        verdict: kind(b),
        place: long_at(b, 12),
        code: long_at(b, 16),
    }
}

// The first fault of a block where this number is due, if it has one.
#[tactic(auto, using(crate::proofs::Faults::tests_of), unfolding(slices::specs::Choice::pick))]
pub fn fault_of(b: &[u8], due: usize) -> Option<Fault>
    ensures { result ≡ fault_of due b.now }
{
    if long_at(b, CHECK_AT) != tape_crc::of_block(b) {
        return Some(Fault::BadCheck);
    }
    if number(b) as usize != due {
        return Some(Fault::BadNumber);
    }
    if no_verdict(kind(b)) {
        return Some(Fault::BadVerdict);
    }
    if zeros_bad(b) {
        return Some(Fault::BadZeros);
    }
    None
}

// The block of an entry under a block number.
pub fn block_of(n: u32, e: Entry) -> [u8; BLOCK]
    ensures { result ≡ block n e }
{
    let mut b = [0u8; BLOCK];
    lay(&mut b, 0, &head_bytes(n, e));
    let check = tape_crc::of_block(&b);
    lay(&mut b, CHECK_AT, &four_bytes(check));
    b
}

// Whether a byte where zeros belong is another, or is not there.
fn zeros_bad(b: &[u8]) -> bool
    ensures { result ≡ zeros_bad b.now }
{
    !(alike(part(b, SPARE_AT, SPARE), &[0; SPARE])
        && alike(part(b, PADDING_AT, PADDING), &[0; PADDING]))
}

// The bytes of a block before its zeros.
fn head_bytes(n: u32, e: Entry) -> [u8; PADDING_AT]
    ensures { result ≡ head n e }
{
    let a = four_bytes(n);
    let t = four_bytes(e.tape);
    let p = four_bytes(e.place);
    let c = four_bytes(e.code);
    [
        a[0], a[1], a[2], a[3], t[0], t[1], t[2], t[3], e.verdict, 0, 0, 0, p[0], p[1], p[2], p[3],
        c[0], c[1], c[2], c[3],
    ]
}

// Four bytes as a number: a part begins with it, as a block does with its own.
fn long_at(b: &[u8], at: usize) -> u32
    ensures { result ≡ field at 4 b.now }
{
    number(part(b, at, 4))
}
