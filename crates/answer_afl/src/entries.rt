// The entries of an AFL: whether they are right, and how many records they name.
ghost use Rattle.std.specs.Prelude.{◌≡◌, ◌+◌, ◌≤◌};
ghost use Rattle.answer_afl.specs.Entries.{first_entry, records as records_of, whole_entries};
ghost use Rattle.answer_afl.specs.Entries.{file_right, entry_right, entries_right, too_many};

use slices::byte;

// The most records in all.
const MOST_RECORDS: usize = 500;

// Whether the bytes are whole entries, one at least.
#[tactic(auto, unfolding(crate::specs::Entries::whole_entries, slices::specs::Tests::every, slices::specs::Choice::pick))]
pub fn are_whole(locator: &[u8]) -> bool
    ensures { result ≡ whole_entries locator.now }
{
    4 <= locator.len() && locator.len() % 4 == 0
}

// How many records the entry at the front names.
#[tactic(auto, unfolding(crate::specs::Entries::records, crate::specs::Entries::first_entry))]
pub fn records(s: &[u8]) -> usize
    ensures { (result ≡ records_of (first_entry s.now)) × (result ≤ 256) × ((first_entry s.now).first + result ≤ 256) }
{
    let first = byte(s, 1);
    let last = byte(s, 2);
    if first <= last { last - first + 1 } else { 1 }
}

#[tactic(auto, unfolding(crate::specs::Entries::file_right, slices::specs::Tests::between, slices::specs::Tests::every, slices::specs::Choice::pick))]
fn is_file_right(file: usize) -> bool
    ensures { result ≡ file_right file }
{
    file % 8 == 0 && 1 <= file / 8 && file / 8 <= 10
}

// Whether the entry at the front is right.
#[tactic(auto, unfolding(crate::specs::Entries::entry_right, crate::specs::Entries::first_entry, slices::specs::Tests::every, slices::specs::Choice::pick))]
fn is_entry_right(s: &[u8]) -> bool
    ensures { result ≡ entry_right (first_entry s.now) }
{
    let first = byte(s, 1);
    is_file_right(byte(s, 0)) && 1 <= first && first <= byte(s, 2) && byte(s, 3) <= records(s)
}

pub fn are_right(locator: &[u8]) -> bool
    ensures { result ≡ entries_right locator.now }
{
    locator.chunks_exact(4).all(|entry| is_entry_right(entry))
}

// Whether the entries name more records than may be read. It stops at the first record too many.
pub fn are_too_many(locator: &[u8]) -> bool
    ensures { result ≡ too_many locator.now }
{
    let mut sum = 0;
    for entry in locator.chunks_exact(4) {
        sum += records(entry);
        if MOST_RECORDS < sum {
            return true;
        }
    }
    false
}
