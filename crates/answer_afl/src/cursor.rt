// A cursor that goes from record to record over the AFL's own bytes.
ghost use Rattle.std.specs.Prelude.{◌≡◌, true, ◌+◌, ◌<◌};
ghost use Rattle.answer_afl.specs.Cursor.{from_entry, entry_at, start as start_of, is_left, record_at, stepped};

use crate::entries::records;
use slices::byte;

// A place among the records: which entry, from 0, and how many of its records are done.
#[derive(Clone, Copy)]
pub struct Cursor {
    pub entry: usize,
    pub done: usize,
}

#[tactic(auto, unfolding(crate::specs::Cursor::start))]
pub fn start() -> Cursor
    ensures { result ≡ start_of }
{
    Cursor { entry: 0, done: 0 }
}

// The AFL from an entry on.
#[tactic(auto, using(slices::proofs::Cutting::rest_part), unfolding(crate::specs::Cursor::from_entry))]
fn from_entry(locator: &[u8], k: usize) -> &[u8]
    ensures { result.now ≡ from_entry locator.now k }
{
    if k <= locator.len() / 4 {
        return &locator[4 * k..];
    }
    &locator[0..0]
}

// Whether a record stands at the cursor.
#[tactic(auto, unfolding(crate::specs::Cursor::is_left, crate::specs::Cursor::entry_at, slices::specs::Tests::every, slices::specs::Choice::pick))]
pub fn is_left(locator: &[u8], c: Cursor) -> bool
    ensures { (result ≡ is_left locator.now c)
        × (result ≡ true → (c.done < 256) × ((entry_at locator.now c).first + c.done < 256)) }
{
    let s = from_entry(locator, c.entry);
    4 <= s.len() && c.done < records(s)
}

// Its number; 0 where none stands there.
#[tactic(auto, unfolding(crate::specs::Cursor::record_at, crate::specs::Cursor::entry_at, crate::specs::Entries::first_entry, slices::specs::Choice::pick))]
pub fn record(locator: &[u8], c: Cursor) -> usize
    ensures { (result ≡ (record_at locator.now c).0) × (result < 256) }
{
    if is_left(locator, c) {
        byte(from_entry(locator, c.entry), 1) + c.done
    } else {
        0
    }
}

// Its file's SFI; 0 where none stands there.
#[tactic(auto, unfolding(crate::specs::Cursor::record_at, crate::specs::Cursor::entry_at, crate::specs::Entries::first_entry, crate::specs::Entries::sfi, slices::specs::Choice::pick))]
pub fn file(locator: &[u8], c: Cursor) -> usize
    ensures { (result ≡ (record_at locator.now c).1) × (result < 256) }
{
    if is_left(locator, c) {
        byte(from_entry(locator, c.entry), 0) / 8
    } else {
        0
    }
}

// The cursor one record on.
#[tactic(auto, using(crate::proofs::Walking::left_room), unfolding(crate::specs::Cursor::stepped, crate::specs::Cursor::entry_at, slices::specs::Choice::pick))]
pub fn step(locator: &[u8], c: Cursor) -> Cursor
    ensures { result ≡ stepped locator.now c }
{
    if is_left(locator, c) {
        let n = records(from_entry(locator, c.entry));
        if c.done + 1 < n {
            Cursor {
                entry: c.entry,
                done: c.done + 1,
            }
        } else {
            Cursor {
                entry: c.entry + 1,
                done: 0,
            }
        }
    } else {
        c
    }
}
