// Answers questions on a card's answers, one to a line of standard input. Bytes are in hexadecimal, `-` for none. Printed is
// the lowest reason that applies; where none does, 0 and what the answer tells.
//
//     SELECT start answer     9F38, and the GPO command that it is filled into
//     GPO answer              82, and P1 and P2 of each READ RECORD
//     RECORDS answer ..       each record's reason and the values that it tells, up to the first with a reason; then the
//                             reason found after the last
//     RECORDS74 answer ..     the same for a START of 74 bytes
//     AC1 request answer      the cryptogram's type, to a first request of AAC, TC or ARQC
//     AC2 request answer      the same to a second
#![tactic(auto)]

mod cryptogram;
mod options;
mod records;
mod select;

use slices::byte;
use std::io;
use text_input::read_full;
use text_lines::after_word;

fn main(rt: HostRuntime) -> io::Result<()> {
    let mut input = [0u8; 524288];
    let n = read_full(&rt, &mut input);
    answer_all(&rt, &input[..n])
}

fn answer_all(rt: &impl Print, s: &[u8]) -> io::Result<()> {
    for line in s.split_inclusive(|b| *b == b'\n') {
        answer(rt, line.strip_suffix(b"\n").unwrap_or(line))?;
    }
    Ok(())
}

// The first letter tells the question.
fn answer(rt: &impl Print, question: &[u8]) -> io::Result<()> {
    let words = after_word(question);
    match byte(question, 0) as u8 {
        b'S' => select::answer(rt, words)?,
        b'G' => options::answer(rt, words)?,
        b'R' => records::answer(rt, byte(question, 7) as u8, words)?,
        b'A' => cryptogram::answer(rt, byte(question, 2) as u8, words)?,
        _ => text_print::text(rt, b"?")?,
    }
    text_print::text(rt, b"\n")
}
