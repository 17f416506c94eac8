// The reader by place: it steps from object to object over the lent bytes and copies nothing.
ghost use Rattle.std.specs.Prelude.{◌≡◌, ◌+◌, ◌<◌, ◌≤◌, length, drop};
ghost use Rattle.tlv_list.specs.Objects.{between, read_refusal};
ghost use Rattle.tlv_list.specs.Place.{fillers, next_at, checked_at, data_field};

use crate::list::is_list;
use numbers::REFUSED_READING;
use slices::part;
use tlv_head::Next;
use tlv_head::head::member_at;
use tlv_head::tag::is_constructed;

// The place of the first byte from `at` on that is not '00', or the end.
fn past_fillers(s: &[u8], at: usize) -> usize
    requires { at ≤ length s.now }
    ensures { (result ≡ at + fillers (drop at s.now)) × (result ≤ length s.now) }
{
    for i in at..s.len() {
        if s[i] != 0 {
            return i;
        }
    }
    s.len()
}

// 0 where the bytes are a list of objects that may be read, else refusal 9.
pub fn list_refusal(s: &[u8]) -> usize
    ensures { result ≡ read_refusal s.now }
{
    if 4096 < s.len() {
        REFUSED_READING
    } else if is_list(s) {
        0
    } else {
        REFUSED_READING
    }
}

// The next object at or after a place.
pub fn next(s: &[u8], at: usize) -> Next
    ensures { result ≡ next_at s.now at }
{
    if s.len() <= at {
        return Next::End;
    }
    let p = past_fillers(s, at);
    if s.len() <= p {
        return Next::End;
    }
    member_at(s, p)
}

// The part of the lent bytes from `start` up to `end`, as far as it is there: a member's value is such a part.
pub fn value(s: &[u8], start: usize, end: usize) -> &[u8]
    ensures { result.now ≡ between s.now start end }
{
    if end < start {
        return part(s, start, 0);
    }
    part(s, start, end - start)
}

// The next object at or after a place; none too where a constructed one has no list in it.
pub fn next_checked(s: &[u8], at: usize) -> Next
    ensures { result ≡ checked_at s.now at }
{
    match next(s, at) {
        Next::End => Next::End,
        Next::Broken => Next::Broken,
        Next::Member { tag, start, end } => {
            if is_constructed(tag) && list_refusal(value(s, start, end)) != 0 {
                return Next::Broken;
            }
            Next::Member { tag, start, end }
        }
    }
}

// The data field of a card's answer.
pub fn data_field(answer: &[u8]) -> &[u8]
    ensures { result.now ≡ data_field answer.now }
{
    if answer.len() < 2 {
        return &answer[0..0];
    }
    &answer[0..answer.len() - 2]
}
