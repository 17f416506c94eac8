// The head of a data object, read once from left to right. A byte past the end reads as 0; `fitting` then finds that the object does not
// fit.
ghost use Rattle.std.specs.Prelude.{◌≡◌, true, ◌+◌, ◌<◌, ◌≤◌, leb, length, drop};
ghost use Rattle.slices.specs.Choice.{pick};
ghost use Rattle.tlv_head.specs.Head.{tag_of, tag_size, tag_right};
ghost use Rattle.tlv_head.specs.Member.{member_at};
ghost use Rattle.tlv_head.specs.declared.Next.TheVariants.{Member, Broken};

use crate::Next;
use crate::tag::{is_tag_right, tag_of, tag_size};
use slices::byte;

// An object whose value has n bytes from `start` on, if these are there.
fn fitting(s: &[u8], tag: usize, start: usize, n: usize) -> Next
    requires { (start ≤ length s.now + 5) × (n < 65536) }
    ensures { result ≡ pick (leb (start + n) (length s.now)) (Member tag start (start + n)) Broken }
{
    let end = start + n;
    if end <= s.len() {
        Next::Member { tag, start, end }
    } else {
        Next::Broken
    }
}

// The object at a place where a tag stands, of so many bytes: by its length.
fn sized(s: &[u8], p: usize, tag: usize, size: usize) -> Next
    requires { (p ≤ length s.now) × (size ≤ 2) × (tag_right (drop p s.now) ≡ true) × (tag ≡ tag_of (drop p s.now))
        × (size ≡ tag_size (drop p s.now)) }
    ensures { result ≡ member_at s.now p }
{
    let at = p + size;
    let form = byte(s, at);
    if form < 0x80 {
        fitting(s, tag, at + 1, form)
    } else if form == 0x81 {
        fitting(s, tag, at + 2, byte(s, at + 1))
    } else if form == 0x82 {
        fitting(s, tag, at + 3, 256 * byte(s, at + 1) + byte(s, at + 2))
    } else {
        Next::Broken
    }
}

// The object whose head stands at a place; none past the end.
pub fn member_at(s: &[u8], p: usize) -> Next
    ensures { result ≡ member_at s.now p }
{
    if s.len() < p {
        return Next::Broken;
    }
    let t = &s[p..];
    if is_tag_right(t) {
        sized(s, p, tag_of(t), tag_size(t))
    } else {
        Next::Broken
    }
}
