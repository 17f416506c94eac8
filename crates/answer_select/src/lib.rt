// The answer to SELECT.
#![tactic(auto)]

ghost use Rattle.std.specs.Prelude.{◌≡◌, [], ◌∷◌, ◌++◌};
ghost use Rattle.slices.specs.Choice.{first_of};
ghost use Rattle.slices.specs.Tables.{any_of};
ghost use Rattle.start_fields.specs.Reading.{reading_of};
ghost use Rattle.tlv_list.specs.Lookup.{found_value};
ghost use Rattle.answer_common.specs.Answer.{frame};
ghost use Rattle.answer_common.specs.Named.{direct, value_of, wrong_value};
ghost use Rattle.answer_common.specs.Single.{single_of};
ghost use Rattle.answer_common.specs.declared.answer.Single.TheVariants.{Object};
ghost use Rattle.answer_select.specs.Select.{begins as begins_of, name_wrong, select_lines, select_reason, pdol_of, pdol_read};

use answer_common::answer::{Single, inside, single_of};
use answer_common::named;
use answer_common::named::{any_times, value_in_checked, value_of};
use dol_wanted::is_fillable;
use numbers::{FOR_CONTENT, FOR_LIST, FOR_MISSING, FOR_OBJECT, FOR_TWICE};
use start_fields::fields;
use tlv_list::Found;
use tlv_list::lookup::members;
use tlv_list::place::{data_field, value};

const SELECTED: usize = 0x6F;

// A5's value.
fn proprietary(answer: &[u8]) -> &[u8]
    ensures { result.now ≡ value_of (direct 0x6F answer.now 0xA5) }
{
    value_in_checked(inside(answer, SELECTED), 0xA5)
}

// The list of what GPO wants to be told; empty where the card has none.
pub fn pdol(answer: &[u8]) -> &[u8]
    ensures { result.now ≡ pdol_of answer.now }
{
    value_in_checked(proprietary(answer), 0x9F38)
}

// The same by place, for an answer that `select_reason` has nothing against: it is not checked again.
pub fn pdol_read(answer: &[u8]) -> &[u8]
    ensures { result.now ≡ pdol_read answer.now }
{
    match single_of(answer) {
        Single::Refused(_) => &answer[0..0],
        Single::Object { start, end, .. } => {
            let v = value(data_field(answer), start, end);
            value_in_checked(value_in_checked(v, 0xA5), 0x9F38)
        }
    }
}

fn begins(aid: &[u8], v: &[u8]) -> bool
    ensures { result ≡ begins_of aid.now v.now }
{
    v.starts_with(aid)
}

// Whether the name 84 was found and does not begin with the AID.
#[tactic(auto, unfolding(crate::specs::Select::name_wrong, tlv_list::specs::Lookup::found_value))]
fn is_name_wrong(aid: &[u8], s: &[u8], found: Found) -> bool
    ensures { result ≡ name_wrong aid.now (found_value s.now found) }
{
    matches!(found, Found::Once { start, end } if !begins(aid, value(s, start, end)))
}

// Whether one of the values is wrong: 84 and A5 in 6F, 9F38 in A5.
#[tactic(auto, unfolding(slices::specs::Tables::any_of, slices::specs::Choice::pick))]
fn is_wrong(aid: &[u8], s: &[u8], name: Found, inner: Found, p: &[u8], list: Found) -> bool
    ensures { result
        ≡ any_of (wrong_value 0x84 (found_value s.now name) ∷ wrong_value 0xA5 (found_value s.now inner)
        ∷ wrong_value 0x9F38 (found_value p.now list) ∷ name_wrong aid.now (found_value s.now name) ∷ []) }
{
    named::is_wrong(s, 0x84, name)
        || named::is_wrong(s, 0xA5, inner)
        || named::is_wrong(p, 0x9F38, list)
        || is_name_wrong(aid, s, name)
}

// Reasons 3 to 9 of an answer whose one object is 6F, by its members; 0 where none of them applies.
fn content_reason(aid: &[u8], answer: &[u8], start: usize, end: usize) -> usize
    requires { single_of answer.now ≡ Object 0x6F start end }
    ensures { result ≡ first_of (frame (0x6F ∷ []) answer.now ++ select_lines aid.now answer.now) }
{
    let s = value(data_field(answer), start, end);
    let m = members(s, 0x84, 0xA5, 0x84, 0xA5);
    if !m.list {
        return FOR_OBJECT;
    }
    let name = m.first;
    let inner = m.second;
    let p = value_of(s, inner);
    let n = members(p, 0x9F38, 0x9F38, 0x9F38, 0x9F38);
    let list = n.first;
    if any_times(2, name, inner, list, list) {
        return FOR_TWICE;
    }
    if is_wrong(aid, s, name, inner, p, list) {
        return FOR_CONTENT;
    }
    if any_times(0, name, inner, name, inner) {
        return FOR_MISSING;
    }
    if is_fillable(value_of(p, list)) {
        0
    } else {
        FOR_LIST
    }
}

// The lowest reason that applies; 0 where none does.
pub fn select_reason(start: &[u8], answer: &[u8]) -> usize
    ensures { result ≡ select_reason (reading_of start.now) answer.now }
{
    match single_of(answer) {
        Single::Refused(why) => why,
        Single::Object {
            tag,
            start: from,
            end,
        } => {
            if tag != SELECTED {
                return FOR_OBJECT;
            }
            content_reason(fields::aid(start), answer, from, end)
        }
    }
}
