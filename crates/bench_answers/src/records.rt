// Answers to READ RECORD, one after the other.
use answer_common::content::{BASE_NAMES, NAMES};
use answer_record::{complete_reason, take};
use session_records::END;
use session_records::slots::{has, value};
use slices::lay;
use std::io;
use text_hex::unhex;
use text_lines::after_word;

// The letter behind RECORDS tells which names count.
pub fn answer(rt: &impl Print, letter: u8, words: &[u8]) -> io::Result<()> {
    let names = NAMES;
    if letter == b'7' {
        answer_each(rt, &names[0..BASE_NAMES], words)
    } else {
        answer_each(rt, &names, words)
    }
}

// Each word is one answer. After the last of them the reason for all.
fn answer_each(rt: &impl Print, names: &[usize], words: &[u8]) -> io::Result<()> {
    let mut told = [0u8; END];
    let mut left = words;
    while 0 < left.len() {
        if take_word(rt, &mut told, names, left)? != 0 {
            return Ok(());
        }
        left = after_word(left);
    }
    text_print::number(rt, complete_reason(&told))
}

// Prints one record's reason and what it tells, and answers the reason.
fn take_word(rt: &impl Print, told: &mut [u8], names: &[usize], word: &[u8]) -> io::Result<usize> {
    let mut bytes = [0u8; 500];
    let n = unhex(word, &mut bytes);
    let mut before = [0u8; END];
    lay(&mut before, 0, told);
    let why = take(told, names, &bytes[0..n]);
    text_print::number(rt, why)?;
    if why == 0 {
        print_values(rt, &before, told, names)?;
        text_print::text(rt, b" | ")?;
    }
    Ok(why)
}

fn print_values(rt: &impl Print, before: &[u8], told: &[u8], names: &[usize]) -> io::Result<()> {
    for name in names {
        print_value(rt, before, told, *name)?;
    }
    Ok(())
}

// A name that was told since.
fn print_value(rt: &impl Print, before: &[u8], told: &[u8], name: usize) -> io::Result<()> {
    if has(told, name) && !has(before, name) {
        text_print::text(rt, b" ")?;
        text_print::tag(rt, name)?;
        text_print::text(rt, b":")?;
        text_print::bytes_or_dash(rt, value(told, name))?;
    }
    Ok(())
}
