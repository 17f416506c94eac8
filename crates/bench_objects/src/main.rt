// Answers questions on data objects, one to a line of standard input. Bytes are in hexadecimal, `-` for none.
//
//     LIST bytes             the direct members as TAG:VALUE, or the refusal
//     FIND tag bytes         whether the tag stands among them: absent, once with its value, or twice; or the refusal
//     HELD bytes             the objects that a held reader gives, to the end or to the first bytes that are none
//     NTH n bytes            the one of them with n others before it
//     DATA answer            the data field of a card's answer
//     WRITE tag value room   the object written into a buffer of so many bytes, or the refusal
#![tactic(auto)]

mod holding;
mod read;
mod write;

use slices::byte;
use std::io;
use text_hex::unhex;
use text_input::read_full;
use text_lines::{after_word, hex_number, number};

fn main(rt: HostRuntime) -> io::Result<()> {
    let mut input = [0u8; 524288];
    let n = read_full(&rt, &mut input);
    answer_all(&rt, &input[..n])
}

fn answer_all(rt: &impl Print, s: &[u8]) -> io::Result<()> {
    for line in s.split_inclusive(|b| *b == b'\n') {
        answer(rt, line)?;
    }
    Ok(())
}

// The first letter tells the question. A line feed at its end is no digit and ends its last word, so it may stay.
fn answer(rt: &impl Print, question: &[u8]) -> io::Result<()> {
    let words = after_word(question);
    match byte(question, 0) as u8 {
        b'L' => with_bytes(words, |s| read::list(rt, s))?,
        b'F' => with_bytes(after_word(words), |s| read::find(rt, hex_number(words), s))?,
        b'H' => with_bytes(words, |s| holding::list(rt, s))?,
        b'N' => with_bytes(after_word(words), |s| holding::nth(rt, number(words), s))?,
        b'D' => with_bytes(words, |s| read::data(rt, s))?,
        b'W' => write::write(rt, words)?,
        _ => text_print::text(rt, b"?")?,
    }
    text_print::text(rt, b"\n")
}

// Does something with the bytes that a word tells in hexadecimal.
fn with_bytes<F: FnOnce(&[u8]) -> io::Result<()>>(word: &[u8], then: F) -> io::Result<()>
    requires { F.IsAlwaysCallable then }
{
    let mut bytes = [0u8; 5000];
    let n = unhex(word, &mut bytes);
    then(&bytes[..n])
}
