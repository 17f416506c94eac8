// The held reader: the lent answer and a place in it, in one value. 01, "Data objects" and "What shape each place takes".
// Whatever takes or makes such a value has no branch: it hands slice and place to a plain function.
#![tactic(auto)]

ghost use Rattle.std.specs.Prelude.{◌≡◌};
ghost use Rattle.tlv_list.specs.Place.{next_at};
ghost use Rattle.tlv_reader.specs.Held.{place_after, value_at, next_of, value_of, moved_on, nth_from};

use tlv_head::Next;
use tlv_list::place::{next, value};

#[derive(Clone, Copy)]
pub struct Reader<'a> {
    pub src: &'a [u8],
    pub at: usize,
}

// Where to go on after the object at or after a place; where none stands, the place itself.
fn place_after(s: &[u8], at: usize) -> usize
    ensures { result ≡ place_after s.now at }
{
    match next(s, at) {
        Next::Member { end, .. } => end,
        Next::End => at,
        Next::Broken => at,
    }
}

// The value of the object at or after a place; empty where none stands.
fn value_at(s: &[u8], at: usize) -> &[u8]
    ensures { result.now ≡ value_at s.now at }
{
    match next(s, at) {
        Next::Member { start, end, .. } => value(s, start, end),
        Next::End => value(s, 0, 0),
        Next::Broken => value(s, 0, 0),
    }
}

impl<'a> Reader<'a> {
    pub fn new(src: &'a [u8]) -> Reader<'a>
        ensures { (result.src ≡ src.entry) × (result.at ≡ 0) }
    {
        Reader { src, at: 0 }
    }

    // What stands at its place, or after '00' bytes there.
    pub fn next(self) -> Next
        ensures { result ≡ next_of self.entry }
    {
        next(self.src, self.at)
    }

    // Its value: that part of the lent answer itself.
    pub fn value(self) -> &'a [u8]
        ensures { result.now ≡ value_of self.entry }
    {
        value_at(self.src, self.at)
    }

    // The reader moved on past it.
    pub fn after(self) -> Reader<'a>
        ensures { result ≡ moved_on self.entry }
    {
        let at = place_after(self.src, self.at);
        Reader { src: self.src, at }
    }

    // `next` and `after` in one, for a reader that is lent.
    pub fn read(&mut self) -> Next
        ensures { (result ≡ next_of self.old) × (self.new ≡ moved_on self.old) }
    {
        let at = self.at;
        self.at = place_after(self.src, at);
        next(self.src, at)
    }
}

// For callers, who have a plain slice and no reader: one is made at the place, and asked.
pub fn next_from(s: &[u8], at: usize) -> Next
    ensures { result ≡ next_at s.now at }
{
    Reader { src: s, at }.next()
}

pub fn value_from(s: &[u8], at: usize) -> &[u8]
    ensures { result.now ≡ value_at s.now at }
{
    Reader { src: s, at }.value()
}

// The object with n others before it, in a plain slice.
pub fn object_at(s: &[u8], n: usize) -> Next
    ensures { result ≡ nth_from n s.now 0 }
{
    let mut at = 0;
    for _ in 0..n {
        match next_from(s, at) {
            Next::Member { end, .. } => at = end,
            Next::End => return Next::End,
            Next::Broken => return Next::Broken,
        }
    }
    next_from(s, at)
}
