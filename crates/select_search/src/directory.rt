// The payment system environment and its directory.
ghost use Rattle.std.specs.Prelude.{◌≡◌, not, ◌&&◌, [], map, eqb, length};
ghost use Rattle.tlv_list.specs.Place.{object_at, places_from};
ghost use Rattle.start_list.specs.Listing.{applications_in};
ghost use Rattle.select_answers.specs.Directory.{record_right};
ghost use Rattle.select_list.specs.Kept.{list_in};
ghost use Rattle.select_search.specs.Search.{has_status};
ghost use Rattle.select_search.specs.Directory.{after_environment, next_record, after_record};
ghost use Rattle.select_search.specs.Entries.{entry_met, member_joined, members_joined};
ghost use Rattle.select_search.specs.Turns.{search_of, turn_of, turned, kept};

use crate::finals::final_turn;
use crate::going::go;
use crate::status::has_status;
use crate::{Hearing, Stand, Step, Turn};
use answer_common::answer::inside;
use answer_common::content::RECORD;
use numbers::FOR_NOBODY;
use select_answers::directory::{ENTRY, entry_indicator, entry_name, is_named, is_record};
use select_answers::files::directory_file;
use select_list::joining::{clear, join};
use select_list::reading::{SIZE, count};
use select_names::is_supported;
use start_list::listing::can_choose;
use tlv_head::Next;
use tlv_list::place::{next, value};

// Whether an answer leads to the directory in that file.
fn is_environment(answer: &[u8], file: usize) -> bool
    ensures { result ≡ (has_status 0x9000 answer.now && not (eqb file 0)) }
{
    has_status(answer, 0x9000) && file != 0
}

// The list has no part in it.
pub fn after_environment(stand: Stand, answer: &[u8]) -> Turn
    ensures { result ≡ turn_of (after_environment (search_of stand []) answer.now) }
{
    if has_status(answer, 0x6A81) {
        return Turn::Over(FOR_NOBODY);
    }
    let file = directory_file(answer);
    if is_environment(answer, file) {
        return go(
            stand,
            Step::Directory {
                file: file as u8,
                record: 1,
            },
        );
    }
    go(
        stand,
        Step::Listed {
            aid: 0,
            again: false,
        },
    )
}

// Whether an entry is an application's, and matches.
#[tactic(auto, unfolding(crate::specs::Entries::entry_met))]
fn is_met(start: &[u8], entry: &[u8]) -> bool
    ensures { result ≡ entry_met (applications_in start.now) entry.now }
{
    is_named(entry) && is_supported(start, entry_name(entry))
}

// A member of a record joins where it is such an entry.
#[tactic(auto, unfolding(crate::specs::Entries::member_joined, slices::specs::Choice::pick))]
fn join_member(start: &[u8], tag: usize, entry: &[u8], list: &mut [u8; SIZE])
    ensures { list_in list.new
        ≡ member_joined (applications_in start.now) tag entry.now (list_in list.old) }
{
    if tag == ENTRY && is_met(start, entry) {
        join(
            list,
            entry_name(entry),
            can_choose(start),
            entry_indicator(entry),
        );
    }
}

// All members that the reader finds.
fn join_all(start: &[u8], s: &[u8], list: &mut [u8; SIZE])
    ensures { list_in list.new
        ≡ members_joined (applications_in start.now)
        (map (object_at s.now) (places_from s.now 0)) (list_in list.old) }
{
    let mut p = 0;
    while let Next::Member {
        tag,
        start: at,
        end,
    } = next(s, p)
    {
        join_member(start, tag, value(s, at, end), list);
        p = end;
    }
}

// Whether the directory has ended and its list is complete.
fn is_complete(answer: &[u8], list: &[u8]) -> bool
    ensures { result ≡ (has_status 0x6A83 answer.now && not (eqb (length (list_in list.now)) 0)) }
{
    has_status(answer, 0x6A83) && count(list) != 0
}

fn is_good(answer: &[u8]) -> bool
    ensures { result ≡ (has_status 0x9000 answer.now && record_right answer.now) }
{
    has_status(answer, 0x9000) && is_record(answer)
}

#[tactic(auto, unfolding(crate::specs::Directory::next_record))]
fn next_record(number: u8) -> u8
    ensures { result ≡ next_record number }
{
    if number == 255 { 0 } else { number + 1 }
}

pub fn after_record(h: Hearing<'_>, file: u8, number: u8, list: &mut [u8; SIZE]) -> Turn
    ensures { turned result (list_in list.new) h.entry.answer.now
        ≡ kept (after_record (applications_in h.entry.start.now) (search_of h.entry.stand (list_in list.old)) file number
        h.entry.answer.now) }
{
    if is_complete(h.answer, list) {
        return final_turn(h.stand, h.start, list);
    }
    if is_good(h.answer) {
        join_all(h.start, inside(h.answer, RECORD), list);
        return go(
            h.stand,
            Step::Directory {
                file,
                record: next_record(number),
            },
        );
    }
    clear(list);
    go(
        h.stand,
        Step::Listed {
            aid: 0,
            again: false,
        },
    )
}
