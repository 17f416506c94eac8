// Answers to SELECT, and the GPO command that follows.
use answer_select::{pdol, select_reason};
use commands::write::{LONGEST, options};
use dol_fill::Sources;
use session_records::END;
use session_records::slots::keep;
use slices::part;
use start_fields::fields::FULL;
use std::io;
use text_hex::unhex;
use text_lines::after_word;

pub fn answer(rt: &impl Print, words: &[u8]) -> io::Result<()> {
    let mut start = [0u8; FULL];
    let n = unhex(words, &mut start);
    let mut bytes = [0u8; 500];
    let m = unhex(after_word(words), &mut bytes);
    print_answer(rt, &start[0..n], &bytes[0..m])
}

fn print_answer(rt: &impl Print, start: &[u8], answer: &[u8]) -> io::Result<()> {
    let why = select_reason(start, answer);
    text_print::number(rt, why)?;
    if why == 0 {
        text_print::text(rt, b" ")?;
        text_print::bytes_or_dash(rt, pdol(answer))?;
        text_print::text(rt, b" ")?;
        print_command(rt, start, pdol(answer))?;
    }
    Ok(())
}

// From a TVR and a TSI of zeros, and nothing of the card's.
fn print_command(rt: &impl Print, start: &[u8], list: &[u8]) -> io::Result<()> {
    let mut known = [0u8; END];
    keep(&mut known, 0x95, b"\x00\x00\x00\x00\x00");
    keep(&mut known, 0x9B, b"\x00\x00");
    let mut buf = [0u8; LONGEST];
    let from = Sources {
        start,
        known: &known,
    };
    let n = options(list, from, &mut buf);
    text_print::bytes(rt, part(&buf, 0, n))
}
