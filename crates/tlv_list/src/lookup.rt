// Looking up a tag among the direct members of a list.
ghost use Rattle.std.specs.Prelude.{◌≡◌};
ghost use Rattle.tlv_list.specs.Lookup.{find_in_checked, first_from, seek, noted as noted_of, no_members, members_of};

use crate::place::{list_refusal, next, next_checked};
use crate::{Found, Members};
use numbers::REFUSED_READING;
use tlv_head::Next;

// The first object with the tag from a place on.
fn first_from(s: &[u8], at: usize, tag: usize) -> Found
    ensures { result ≡ first_from s.now at tag }
{
    let mut p = at;
    while let Next::Member { tag: t, start, end } = next(s, p) {
        if t == tag {
            return Found::Once { start, end };
        }
        p = end;
    }
    Found::Absent
}

// Whether the tag stands among the objects not at all, once, and where, or more often. For bytes that were checked: in bytes
// that are no list it speaks of what stands before the break.
pub fn find_in_checked(s: &[u8], tag: usize) -> Found
    ensures { result ≡ find_in_checked s.now tag }
{
    match first_from(s, 0, tag) {
        Found::Absent => Found::Absent,
        Found::Twice => Found::Twice,
        Found::Once { start, end } => match first_from(s, end, tag) {
            Found::Absent => Found::Once { start, end },
            Found::Once { .. } | Found::Twice => Found::Twice,
        },
    }
}

// The same for any bytes; nothing where they are no list, or too many: refusal 9.
pub fn find(s: &[u8], tag: usize) -> Option<Found>
    ensures { result ≡ seek s.now tag }
{
    if list_refusal(s) == REFUSED_READING {
        return None;
    }
    Some(find_in_checked(s, tag))
}

// What was found of a tag, and one object more. It is built anew, not handed on: that would copy the bytes between its parts.
fn noted(found: Found, name: usize, tag: usize, start: usize, end: usize) -> Found
    ensures { result ≡ noted_of name tag start end found }
{
    match found {
        Found::Absent => {
            if tag == name {
                Found::Once { start, end }
            } else {
                Found::Absent
            }
        }
        Found::Once { start: a, end: e } => {
            if tag == name {
                Found::Twice
            } else {
                Found::Once { start: a, end: e }
            }
        }
        Found::Twice => Found::Twice,
    }
}

fn no_members() -> Members
    ensures { result ≡ no_members }
{
    Members {
        list: false,
        first: Found::Absent,
        second: Found::Absent,
        third: Found::Absent,
        fourth: Found::Absent,
    }
}

// Whether the bytes are a list, and four tags looked up in it, all in one pass. Whoever asks for fewer names one of them again.
pub fn members(s: &[u8], a: usize, b: usize, c: usize, d: usize) -> Members
    ensures { result ≡ members_of s.now a b c d }
{
    if 4096 < s.len() {
        return no_members();
    }
    let mut first = Found::Absent;
    let mut second = Found::Absent;
    let mut third = Found::Absent;
    let mut fourth = Found::Absent;
    let mut p = 0;
    while p < s.len() {
        match next_checked(s, p) {
            Next::End => p = s.len(),
            Next::Broken => return no_members(),
            Next::Member { tag, start, end } => {
                first = noted(first, a, tag, start, end);
                second = noted(second, b, tag, start, end);
                third = noted(third, c, tag, start, end);
                fourth = noted(fourth, d, tag, start, end);
                p = end;
            }
        }
    }
    Members {
        list: true,
        first,
        second,
        third,
        fourth,
    }
}
