// The answer to READ RECORD, and what all records together must tell.
#![tactic(auto)]

ghost use Rattle.std.specs.Prelude.{◌≡◌, not, map};
ghost use Rattle.slices.specs.Tests.{is_some};
ghost use Rattle.slices.specs.Tables.{any_of};
ghost use Rattle.answer_record.specs.Records.{after_records};
ghost use Rattle.answer_record.specs.Taken.{taken, worse as worse_of, one_taken, taken_from, record_taken};
ghost use Rattle.session_records.specs.Slots.{told_in};

use answer_common::answer::{Single, single_of};
use answer_common::content::{MANDATORY, RECORD, is_right};
use answer_common::named::is_listed;
use dol_wanted::is_fillable;
use numbers::{FOR_CONTENT, FOR_LIST, FOR_MISSING, FOR_OBJECT, FOR_TWICE};
use session_records::slots::{has, keep, value};
use tlv_head::Next;
use tlv_list::place;
use tlv_list::place::{data_field, next_checked};

// 4 where a name was told before, 5 where a value is wrong; 4 stands before 5.
fn worse(why: usize, again: bool, right: bool) -> usize
    ensures { result ≡ worse_of why again right }
{
    if again {
        return FOR_TWICE;
    }
    if right {
        return why;
    }
    if why == FOR_TWICE {
        return FOR_TWICE;
    }
    FOR_CONTENT
}

// One object of a record, tested and kept where its name counts, with the reason so far. A wrong value is kept as an empty one, so that a
// second one of its name is seen.
fn take_one(told: &mut [u8], names: &[usize], tag: usize, v: &[u8], why: usize) -> usize
    ensures { taken result told.new
        ≡ one_taken names.now tag v.now (taken why told.old) }
{
    if is_listed(tag, names) {
        let again = has(told, tag);
        if is_right(tag, v) {
            keep(told, tag, v);
            worse(why, again, true)
        } else {
            keep(told, tag, &v[0..0]);
            worse(why, again, false)
        }
    } else {
        why
    }
}

// All objects of a record, gone through once; 3 where they turn out to be no list.
fn take_all(told: &mut [u8], names: &[usize], s: &[u8]) -> usize
    ensures { taken result told.new ≡ taken_from names.now s.now 0 (taken 0 told.old) }
{
    let mut why = 0;
    let mut p = 0;
    while p < s.len() {
        match next_checked(s, p) {
            Next::End => return why,
            Next::Broken => return FOR_OBJECT,
            Next::Member { tag, start, end } => {
                why = take_one(told, names, tag, place::value(s, start, end), why);
                p = end;
            }
        }
    }
    why
}

// One record, tested and kept in one pass: the lowest reason that applies, given what was told before and the names that count; 0 where none
// does. Then all that it tells has been kept; else the slots are of no use any more.
pub fn take(told: &mut [u8], names: &[usize], answer: &[u8]) -> usize
    ensures { taken result told.new ≡ record_taken names.now answer.now told.old }
{
    match single_of(answer) {
        Single::Refused(why) => why,
        Single::Object { tag, start, end } => {
            if tag != RECORD {
                return FOR_OBJECT;
            }
            take_all(told, names, place::value(data_field(answer), start, end))
        }
    }
}

// Whether one of the names was not told.
fn any_untold(told: &[u8], names: &[usize]) -> bool
    ensures { result ≡ any_of (map (λ name. not (is_some (told_in told.now name))) names.now) }
{
    names.iter().any(|name| !has(told, *name))
}

// Reasons 8 and 9 after the last record; 0 where neither applies.
pub fn complete_reason(told: &[u8]) -> usize
    ensures { result ≡ after_records (told_in told.now) }
{
    let mandatory = MANDATORY;
    if any_untold(told, &mandatory) {
        return FOR_MISSING;
    }
    if is_fillable(value(told, 0x8C)) {
        0
    } else {
        FOR_LIST
    }
}
