// What is read of an answer, printed.
use answer_common::answer::inside;
use answer_common::content::RECORD;
use answer_common::named::value_in_checked;
use answer_select::pdol;
use select_answers::directory::{ENTRY, entry_name, is_named, is_record};
use select_answers::files::{
    application_indicator, application_name, directory_file, is_application,
};
use std::io;
use tlv_head::Next;
use tlv_list::place::{next, value};

pub fn environment(rt: &impl Print, answer: &[u8]) -> io::Result<()> {
    let file = directory_file(answer);
    if file == 0 {
        text_print::text(rt, b"-")
    } else {
        text_print::number(rt, file)
    }
}

pub fn record(rt: &impl Print, answer: &[u8]) -> io::Result<()> {
    if is_record(answer) {
        text_print::text(rt, b"good")?;
        entries(rt, inside(answer, RECORD))
    } else {
        text_print::text(rt, b"-")
    }
}

fn entries(rt: &impl Print, s: &[u8]) -> io::Result<()> {
    let mut p = 0;
    while let Next::Member { tag, start, end } = next(s, p) {
        member(rt, tag, value(s, start, end))?;
        p = end;
    }
    Ok(())
}

fn member(rt: &impl Print, tag: usize, v: &[u8]) -> io::Result<()> {
    if tag == ENTRY && is_named(v) {
        text_print::text(rt, b" ")?;
        text_print::bytes(rt, entry_name(v))?;
        text_print::text(rt, b" ")?;
        text_print::bytes_or_dash(rt, value_in_checked(v, 0x87))?;
    }
    Ok(())
}

pub fn application(rt: &impl Print, answer: &[u8]) -> io::Result<()> {
    if is_application(answer) {
        text_print::bytes(rt, application_name(answer))?;
        text_print::text(rt, b" ")?;
        text_print::number(rt, application_indicator(answer))?;
        text_print::text(rt, b" ")?;
        text_print::bytes_or_dash(rt, pdol(answer))
    } else {
        text_print::text(rt, b"-")
    }
}
