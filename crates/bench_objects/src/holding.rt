// Questions to the held reader.
use crate::read::{print_member, print_other};
use std::io;
use tlv_head::Next;
use tlv_list::place;

pub fn list(rt: &impl Print, s: &[u8]) -> io::Result<()> {
    text_print::text(rt, b"held")?;
    let mut at = 0;
    while let Next::Member { tag, end, .. } = tlv_reader::next_from(s, at) {
        print_other(rt, tag, tlv_reader::value_from(s, at))?;
        at = end;
    }
    Ok(())
}

pub fn nth(rt: &impl Print, n: usize, s: &[u8]) -> io::Result<()> {
    match tlv_reader::object_at(s, n) {
        Next::End | Next::Broken => text_print::text(rt, b"-"),
        Next::Member { tag, start, end } => print_member(rt, tag, place::value(s, start, end)),
    }
}
