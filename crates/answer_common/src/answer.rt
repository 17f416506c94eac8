// An answer as a whole: its size, its status and its one object.
ghost use Rattle.std.specs.Prelude.{◌≡◌, ◌≤◌, length};
ghost use Rattle.tlv_list.specs.Objects.{objects};
ghost use Rattle.tlv_list.specs.Place.{data_field};
ghost use Rattle.answer_common.specs.Answer.{size_bad, status_bad, outer as outer_of, is_one};
ghost use Rattle.answer_common.specs.Single.{alone_in, single_of};
ghost use Rattle.answer_common.specs.Answer.{inside as inside_of, only as only_of, the_one};

use numbers::{FOR_OBJECT, FOR_SIZE, FOR_STATUS};
use slices::byte;
use tlv_head::Next;
use tlv_list::place::{data_field, list_refusal, next, value};

// The most bytes of an answer.
pub const MOST: usize = 258;

// The most bytes of a value in its one object: less the status, and a tag and a length at each depth.
pub const VALUE_MOST: usize = MOST - 2 - 2 - 2;

// What an answer is found to be: a reason, 1 to 3, or one object, which is not looked into.
#[derive(Clone, Copy)]
pub enum Single {
    Refused(usize),
    Object {
        tag: usize,
        start: usize,
        end: usize,
    },
}

#[tactic(auto, unfolding(crate::specs::Answer::size_bad))]
fn is_size_bad(answer: &[u8]) -> bool
    ensures { result ≡ size_bad answer.now }
{
    answer.len() < 2 || MOST < answer.len()
}

#[tactic(auto, unfolding(crate::specs::Answer::status_bad))]
fn is_status_bad(answer: &[u8]) -> bool
    requires { 2 ≤ length answer.now }
    ensures { result ≡ status_bad answer.now }
{
    let n = answer.len();
    byte(answer, n - 2) != 0x90 || byte(answer, n - 1) != 0x00
}

// The only object of some bytes, where they are a list of one.
fn only(s: &[u8]) -> Next
    requires { length s.now ≤ 4096 }
    ensures { the_one s.now result ≡ only_of (objects s.now) }
{
    if list_refusal(s) != 0 {
        return Next::Broken;
    }
    match next(s, 0) {
        Next::End => Next::End,
        Next::Broken => Next::Broken,
        Next::Member { tag, start, end } => match next(s, end) {
            Next::End => Next::Member { tag, start, end },
            Next::Broken => Next::Broken,
            Next::Member { .. } => Next::Broken,
        },
    }
}

// The one object of an answer's data.
fn outer(answer: &[u8]) -> Next
    ensures { the_one (data_field answer.now) result ≡ outer_of answer.now }
{
    if is_size_bad(answer) {
        return Next::Broken;
    }
    only(data_field(answer))
}

#[tactic(auto, unfolding(crate::specs::Answer::is_one, crate::specs::Answer::tagged, crate::specs::Answer::the_one))]
pub fn is_one(answer: &[u8], tag: usize) -> bool
    ensures { result ≡ is_one tag answer.now }
{
    matches!(outer(answer), Next::Member { tag: t, .. } if t == tag)
}

// The value of an answer's one object, if that has the tag; else nothing.
#[tactic(auto, unfolding(crate::specs::Answer::inside, crate::specs::Answer::value_under, crate::specs::Answer::the_one, slices::specs::Choice::pick))]
pub fn inside(answer: &[u8], tag: usize) -> &[u8]
    ensures { result.now ≡ inside_of tag answer.now }
{
    match outer(answer) {
        Next::Member { tag: t, start, end } if t == tag => value(data_field(answer), start, end),
        _ => &answer[0..0],
    }
}

// The only object that the reader finds in some bytes.
#[tactic(auto, unfolding(crate::specs::Single::alone_in, crate::specs::Single::alone_by, crate::specs::Single::last_one))]
fn alone(s: &[u8]) -> Single
    ensures { result ≡ alone_in s.now }
{
    match next(s, 0) {
        Next::End | Next::Broken => Single::Refused(FOR_OBJECT),
        Next::Member { tag, start, end } => match next(s, end) {
            Next::End => Single::Object { tag, start, end },
            Next::Broken | Next::Member { .. } => Single::Refused(FOR_OBJECT),
        },
    }
}

// The one object of an answer, found once: where its value stands in the answer's data.
#[tactic(auto, using(crate::proofs::Outer::size_right), unfolding(crate::specs::Single::single_of, slices::specs::Choice::pick))]
pub fn single_of(answer: &[u8]) -> Single
    ensures { result ≡ single_of answer.now }
{
    if is_size_bad(answer) {
        return Single::Refused(FOR_SIZE);
    }
    if is_status_bad(answer) {
        return Single::Refused(FOR_STATUS);
    }
    alone(data_field(answer))
}
