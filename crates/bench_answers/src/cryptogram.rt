// Answers to GENERATE AC.
use answer_cryptogram::cryptogram_reason;
use decide_cryptogram::{Cryptogram, Request};
use slices::byte;
use std::io;
use text_hex::unhex;
use text_lines::after_word;

// The turn is '1' or '2'.
pub fn answer(rt: &impl Print, turn: u8, words: &[u8]) -> io::Result<()> {
    let mut bytes = [0u8; 500];
    let n = unhex(after_word(words), &mut bytes);
    let asked = request(words);
    if turn == b'1' {
        print_answer(rt, Request::First(asked), &bytes[0..n])
    } else {
        print_answer(rt, Request::Second(asked), &bytes[0..n])
    }
}

// AAC, TC or ARQC, by the letter that tells them apart.
fn request(word: &[u8]) -> Cryptogram {
    match byte(word, 1) as u8 {
        b'C' => Cryptogram::Tc,
        b'R' => Cryptogram::Arqc,
        _ => Cryptogram::Aac,
    }
}

fn print_answer(rt: &impl Print, request: Request, answer: &[u8]) -> io::Result<()> {
    let why = cryptogram_reason(request, answer);
    text_print::number(rt, why)?;
    if why == 0 {
        print_type(rt, answer_cryptogram::cryptogram(answer))?;
    }
    Ok(())
}

fn print_type(rt: &impl Print, given: Option<Cryptogram>) -> io::Result<()> {
    match given {
        Some(cryptogram) => match cryptogram {
            Cryptogram::Aac => text_print::text(rt, b" AAC"),
            Cryptogram::Tc => text_print::text(rt, b" TC"),
            Cryptogram::Arqc => text_print::text(rt, b" ARQC"),
        },
        None => text_print::text(rt, b" ?"),
    }
}
