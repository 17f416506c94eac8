// Answers to GET PROCESSING OPTIONS, and the records to read.
use answer_afl::cursor;
use answer_gpo::{locator, options_reason, profile};
use std::io;
use text_hex::unhex;

pub fn answer(rt: &impl Print, words: &[u8]) -> io::Result<()> {
    let mut bytes = [0u8; 500];
    let n = unhex(words, &mut bytes);
    print_answer(rt, &bytes[0..n])
}

fn print_answer(rt: &impl Print, answer: &[u8]) -> io::Result<()> {
    let why = options_reason(answer);
    text_print::number(rt, why)?;
    if why == 0 {
        text_print::text(rt, b" ")?;
        text_print::bytes(rt, profile(answer))?;
        print_records(rt, locator(answer))?;
    }
    Ok(())
}

// The records are at most 500, so that the bound on their number is never met.
fn print_records(rt: &impl Print, afl: &[u8]) -> io::Result<()> {
    let mut at = cursor::start();
    for _ in 0..600 {
        if !cursor::is_left(afl, at) {
            break;
        }
        print_record(rt, cursor::record(afl, at), cursor::file(afl, at))?;
        at = cursor::step(afl, at);
    }
    Ok(())
}

// P1 and P2 of the command, from the command itself.
fn print_record(rt: &impl Print, number: usize, file: usize) -> io::Result<()> {
    let mut buf = [0u8; 5];
    commands::write::record((number % 256) as u8, (file % 256) as u8, &mut buf);
    text_print::text(rt, b" ")?;
    text_print::bytes(rt, &buf[2..4])
}
