// Answers questions on the answers of a card in a selection, one to a line of standard input, in hexadecimal; whatever their status.
//
//     ENVIRONMENT answer      the directory's file
//     RECORD answer           good, and the name and the priority indicator of each application in it
//     APPLICATION answer      its name, its priority indicator, and 9F38
//
// `-` stands for a fault, and for what is not there.
#![tactic(auto)]

mod read;

use slices::byte;
use std::io;
use text_hex::unhex;
use text_input::read_full;
use text_lines::after_word;

fn main(rt: HostRuntime) -> io::Result<()> {
    let mut input = [0u8; 524288];
    let n = read_full(&rt, &mut input);
    answer_all(&rt, &input[..n])
}

fn answer_all(rt: &impl Print, s: &[u8]) -> io::Result<()> {
    for line in s.split_inclusive(|b| *b == b'\n') {
        answer(rt, line)?;
    }
    Ok(())
}

// The first letter tells the question. A line feed at its end is no digit and ends its last word, so it may stay.
fn answer(rt: &impl Print, question: &[u8]) -> io::Result<()> {
    let mut bytes = [0u8; 500];
    let n = unhex(after_word(question), &mut bytes);
    match byte(question, 0) as u8 {
        b'E' => read::environment(rt, &bytes[0..n])?,
        b'R' => read::record(rt, &bytes[0..n])?,
        b'A' => read::application(rt, &bytes[0..n])?,
        _ => text_print::text(rt, b"?")?,
    }
    text_print::text(rt, b"\n")
}
