// A record of the payment system directory. Its entries are met with `next` of `tlv_list` in the value of its 70.
ghost use Rattle.std.specs.Prelude.{◌≡◌, map, ◌<◌};
ghost use Rattle.slices.specs.Tests.{every};
ghost use Rattle.tlv_list.specs.Place.{object_at, places_from};
ghost use Rattle.answer_common.specs.Named.{standing};
ghost use Rattle.select_answers.specs.Directory.{is_named, entry_right, entries, record_right, entry_name, entry_indicator};

use crate::objects;
use answer_common::answer::{inside, is_one};
use answer_common::content::RECORD;
use answer_common::named::{times_in_checked, value_in_checked};
use tlv_head::Next;
use tlv_list::place::{next, value};

// The tag of an entry in a record.
pub const ENTRY: usize = 0x61;

// Whether an entry is an application's: it has a name.
pub fn is_named(entry: &[u8]) -> bool
    ensures { result ≡ is_named (standing entry.now) }
{
    times_in_checked(entry, 0x4F) != 0
}

pub fn entry_name(entry: &[u8]) -> &[u8]
    ensures { result.now ≡ entry_name (standing entry.now) }
{
    value_in_checked(entry, 0x4F)
}

// Its priority indicator; 0 where there is none.
pub fn entry_indicator(entry: &[u8]) -> usize
    ensures { (result ≡ entry_indicator (standing entry.now)) × (result < 256) }
{
    objects::indicator(entry)
}

fn is_entry_right(entry: &[u8]) -> bool
    ensures { result ≡ entry_right (standing entry.now) }
{
    if is_named(entry) {
        objects::is_name(entry, 0x4F) && objects::is_indicator(entry)
    } else {
        times_in_checked(entry, 0x9D) != 0
    }
}

// Whether all entries are right that the reader finds.
fn entries_right(s: &[u8]) -> bool
    ensures { result
        ≡ every (map (λ e. entry_right (standing e)) (entries (map (object_at s.now) (places_from s.now 0)))) }
{
    let mut p = 0;
    while let Next::Member { tag, start, end } = next(s, p) {
        if tag == ENTRY && !is_entry_right(value(s, start, end)) {
            return false;
        }
        p = end;
    }
    true
}

// Whether an answer has a good record.
pub fn is_record(answer: &[u8]) -> bool
    ensures { result ≡ record_right answer.now }
{
    is_one(answer, RECORD) && entries_right(inside(answer, RECORD))
}
