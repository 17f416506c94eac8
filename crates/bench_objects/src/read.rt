// Questions to the reader of data objects.
use std::io;
use tlv_head::Next;
use tlv_list::{Found, lookup, place};

pub fn list(rt: &impl Print, s: &[u8]) -> io::Result<()> {
    if place::list_refusal(s) == 9 {
        return text_print::text(rt, b"refused 9");
    }
    match place::next(s, 0) {
        Next::End | Next::Broken => text_print::text(rt, b"-"),
        Next::Member { tag, start, end } => {
            print_member(rt, tag, place::value(s, start, end))?;
            print_others(rt, s, end)
        }
    }
}

fn print_others(rt: &impl Print, s: &[u8], from: usize) -> io::Result<()> {
    let mut at = from;
    while let Next::Member { tag, start, end } = place::next(s, at) {
        print_other(rt, tag, place::value(s, start, end))?;
        at = end;
    }
    Ok(())
}

pub fn print_other(rt: &impl Print, tag: usize, value: &[u8]) -> io::Result<()> {
    text_print::text(rt, b" ")?;
    print_member(rt, tag, value)
}

pub fn print_member(rt: &impl Print, tag: usize, value: &[u8]) -> io::Result<()> {
    text_print::tag(rt, tag)?;
    text_print::text(rt, b":")?;
    text_print::bytes(rt, value)
}

pub fn find(rt: &impl Print, tag: usize, s: &[u8]) -> io::Result<()> {
    match lookup::find(s, tag) {
        None => text_print::text(rt, b"refused 9"),
        Some(found) => print_found(rt, found, s),
    }
}

fn print_found(rt: &impl Print, found: Found, s: &[u8]) -> io::Result<()> {
    match found {
        Found::Absent => text_print::text(rt, b"absent"),
        Found::Twice => text_print::text(rt, b"twice"),
        Found::Once { start, end } => {
            text_print::text(rt, b"once ")?;
            text_print::bytes_or_dash(rt, place::value(s, start, end))
        }
    }
}

pub fn data(rt: &impl Print, answer: &[u8]) -> io::Result<()> {
    text_print::bytes_or_dash(rt, place::data_field(answer))
}
