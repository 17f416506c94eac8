// The answer to GET PROCESSING OPTIONS.
#![tactic(auto)]

ghost use Rattle.std.specs.Prelude.{◌≡◌, ◌++◌};
ghost use Rattle.slices.specs.Choice.{first_of};
ghost use Rattle.answer_common.specs.Answer.{frame};
ghost use Rattle.answer_common.specs.Forms.{both_forms};
ghost use Rattle.answer_common.specs.Single.{single_of};
ghost use Rattle.answer_common.specs.declared.answer.Single.TheVariants.{Object};
ghost use Rattle.answer_gpo.specs.Options.{profile_of, locator_of, profile_read, locator_read, options_lines, options_reason};

use answer_afl::entries::{are_right, are_too_many, are_whole};
use answer_common::answer::{MOST, Single, inside, is_one, single_of};
use answer_common::forms::{JOINED, TEMPLATE, read_form};
use answer_common::named::{any_times, is_wrong, value_in_checked, value_of};
use numbers::{FOR_CONTENT, FOR_LOCATOR, FOR_MISSING, FOR_OBJECT, FOR_RECORDS, FOR_TWICE};
use slices::part;
use tlv_list::lookup::members;
use tlv_list::place::{data_field, value};

// The AIP's bytes.
pub fn profile(answer: &[u8]) -> &[u8]
    ensures { result.now ≡ profile_of answer.now }
{
    if is_one(answer, JOINED) {
        part(inside(answer, JOINED), 0, 2)
    } else {
        value_in_checked(inside(answer, TEMPLATE), 0x82)
    }
}

// The AFL's bytes.
pub fn locator(answer: &[u8]) -> &[u8]
    ensures { result.now ≡ locator_of answer.now }
{
    if is_one(answer, JOINED) {
        let both = inside(answer, JOINED);
        part(both, 2, both.len())
    } else {
        value_in_checked(inside(answer, TEMPLATE), 0x94)
    }
}

// Both by place, for an answer that `options_reason` has nothing against: it is not checked again.
pub fn profile_read(answer: &[u8]) -> &[u8]
    ensures { result.now ≡ profile_read answer.now }
{
    read_form(answer, 0, 2, 0x82)
}

pub fn locator_read(answer: &[u8]) -> &[u8]
    ensures { result.now ≡ locator_read answer.now }
{
    read_form(answer, 2, MOST, 0x94)
}

// Reasons 5 to 7 of an answer whose one object has the values joined; 0 where none of them applies.
fn joined_reason(answer: &[u8], start: usize, end: usize) -> usize
    requires { single_of answer.now ≡ Object 0x80 start end }
    ensures { result ≡ first_of (frame both_forms answer.now ++ options_lines answer.now) }
{
    let both = value(data_field(answer), start, end);
    let afl = part(both, 2, both.len());
    if !are_whole(afl) {
        return FOR_CONTENT;
    }
    if !are_right(afl) {
        return FOR_LOCATOR;
    }
    if are_too_many(afl) { FOR_RECORDS } else { 0 }
}

// Reasons 3 to 8 of an answer whose one object is a template, by its members; 0 where none of them applies.
fn template_reason(answer: &[u8], start: usize, end: usize) -> usize
    requires { single_of answer.now ≡ Object 0x77 start end }
    ensures { result ≡ first_of (frame both_forms answer.now ++ options_lines answer.now) }
{
    let s = value(data_field(answer), start, end);
    let m = members(s, 0x82, 0x94, 0x82, 0x94);
    if !m.list {
        return FOR_OBJECT;
    }
    let profile = m.first;
    let locator = m.second;
    if any_times(2, profile, locator, profile, locator) {
        return FOR_TWICE;
    }
    if is_wrong(s, 0x82, profile) {
        return FOR_CONTENT;
    }
    if is_wrong(s, 0x94, locator) {
        return FOR_CONTENT;
    }
    let afl = value_of(s, locator);
    if !are_right(afl) {
        return FOR_LOCATOR;
    }
    if are_too_many(afl) {
        return FOR_RECORDS;
    }
    if any_times(0, profile, locator, profile, locator) {
        FOR_MISSING
    } else {
        0
    }
}

// The lowest reason that applies; 0 where none does.
pub fn options_reason(answer: &[u8]) -> usize
    ensures { result ≡ options_reason answer.now }
{
    match single_of(answer) {
        Single::Refused(why) => why,
        Single::Object { tag, start, end } => {
            if tag == JOINED {
                return joined_reason(answer, start, end);
            }
            if tag == TEMPLATE {
                template_reason(answer, start, end)
            } else {
                FOR_OBJECT
            }
        }
    }
}
