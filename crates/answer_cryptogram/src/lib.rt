// The answer to GENERATE AC.
#![tactic(auto)]

ghost use Rattle.std.specs.Prelude.{◌≡◌, not, [], ◌∷◌, ◌++◌, get_or};
ghost use Rattle.slices.specs.Choice.{first_of};
ghost use Rattle.slices.specs.Tables.{any_of};
ghost use Rattle.numbers.specs.Tables.{for_cryptogram};
ghost use Rattle.tlv_list.specs.Lookup.{found_value};
ghost use Rattle.decide_cryptogram.specs.Cryptograms.{given_by, allowed_by};
ghost use Rattle.answer_common.specs.Answer.{frame};
ghost use Rattle.answer_common.specs.Forms.{both_forms};
ghost use Rattle.answer_common.specs.Named.{wrong_value};
ghost use Rattle.answer_common.specs.Single.{single_of};
ghost use Rattle.answer_common.specs.declared.answer.Single.TheVariants.{Object};
ghost use Rattle.answer_cryptogram.specs.Cryptogram.{information_of, cryptogram_of, cryptogram_read, cryptogram_lines, cryptogram_reason};

use answer_common::answer::{Single, inside, is_one, single_of};
use answer_common::forms::{JOINED, TEMPLATE, read_form};
use answer_common::named::{any_times, is_wrong, value_in_checked, value_of};
use decide_cryptogram::{Cryptogram, Request, allowed, given_by};
use numbers::{FOR_CONTENT, FOR_CRYPTOGRAM, FOR_MISSING, FOR_OBJECT, FOR_TWICE};
use slices::byte;
use tlv_list::Found;
use tlv_list::lookup::members;
use tlv_list::place::{data_field, value};

// Bytes that begin with that of 9F27.
fn information(answer: &[u8]) -> &[u8]
    ensures { result.now ≡ information_of answer.now }
{
    if is_one(answer, JOINED) {
        inside(answer, JOINED)
    } else {
        value_in_checked(inside(answer, TEMPLATE), 0x9F27)
    }
}

pub fn cryptogram(answer: &[u8]) -> Option<Cryptogram>
    ensures { result ≡ cryptogram_of answer.now }
{
    given_by(byte(information(answer), 0) as u8)
}

// The same by place, for an answer that `cryptogram_reason` has nothing against: it is not checked again.
pub fn cryptogram_read(answer: &[u8]) -> Option<Cryptogram>
    ensures { result ≡ cryptogram_read answer.now }
{
    given_by(byte(read_form(answer, 0, 1, 0x9F27), 0) as u8)
}

// Whether one of the four values is wrong.
fn is_any_wrong(
    s: &[u8],
    information: Found,
    counter: Found,
    cryptogram: Found,
    issuer: Found,
) -> bool
    ensures { result
        ≡ any_of (wrong_value 0x9F27 (found_value s.now information) ∷ wrong_value 0x9F36 (found_value s.now counter)
        ∷ wrong_value 0x9F26 (found_value s.now cryptogram) ∷ wrong_value 0x9F10 (found_value s.now issuer) ∷ []) }
{
    if is_wrong(s, 0x9F27, information) {
        return true;
    }
    if is_wrong(s, 0x9F36, counter) {
        return true;
    }
    if is_wrong(s, 0x9F26, cryptogram) {
        return true;
    }
    is_wrong(s, 0x9F10, issuer)
}

// Reason 10 of the bytes that begin with that of 9F27; 0 where it does not apply.
fn given_reason(request: Request, information: &[u8]) -> usize
    ensures { result ≡ first_of ((not (allowed_by request (given_by (get_or information.now 0 0))), for_cryptogram) ∷ []) }
{
    if allowed(request, given_by(byte(information, 0) as u8)) {
        0
    } else {
        FOR_CRYPTOGRAM
    }
}

// Reasons 5 and 10 of an answer whose one object has the values joined; 0 where neither applies.
fn joined_reason(request: Request, answer: &[u8], start: usize, end: usize) -> usize
    requires { single_of answer.now ≡ Object 0x80 start end }
    ensures { result ≡ first_of (frame both_forms answer.now ++ cryptogram_lines (allowed_by request) answer.now) }
{
    let both = value(data_field(answer), start, end);
    if both.len() < 11 {
        return FOR_CONTENT;
    }
    if 43 < both.len() {
        return FOR_CONTENT;
    }
    given_reason(request, both)
}

// Reasons 3 to 10 of an answer whose one object is a template, by its members; 0 where none of them applies.
fn template_reason(request: Request, answer: &[u8], start: usize, end: usize) -> usize
    requires { single_of answer.now ≡ Object 0x77 start end }
    ensures { result ≡ first_of (frame both_forms answer.now ++ cryptogram_lines (allowed_by request) answer.now) }
{
    let s = value(data_field(answer), start, end);
    let m = members(s, 0x9F27, 0x9F36, 0x9F26, 0x9F10);
    if !m.list {
        return FOR_OBJECT;
    }
    let information = m.first;
    let counter = m.second;
    let cryptogram = m.third;
    let issuer = m.fourth;
    if any_times(2, information, counter, cryptogram, issuer) {
        return FOR_TWICE;
    }
    if is_any_wrong(s, information, counter, cryptogram, issuer) {
        return FOR_CONTENT;
    }
    if any_times(0, information, counter, cryptogram, cryptogram) {
        return FOR_MISSING;
    }
    given_reason(request, value_of(s, information))
}

// The lowest reason that applies; 0 where none does.
pub fn cryptogram_reason(request: Request, answer: &[u8]) -> usize
    ensures { result ≡ cryptogram_reason (allowed_by request) answer.now }
{
    match single_of(answer) {
        Single::Refused(why) => why,
        Single::Object { tag, start, end } => {
            if tag == JOINED {
                return joined_reason(request, answer, start, end);
            }
            if tag == TEMPLATE {
                template_reason(request, answer, start, end)
            } else {
                FOR_OBJECT
            }
        }
    }
}
