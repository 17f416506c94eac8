// Verification lists gone through, one to a line of standard input, for comparison with an outside tool:
//
//     START 9F33 9F42 8E RESULTS
//
// START's first 21 bytes, the values of the tags and the bytes handed in are in hexadecimal, `-` for none. Each line of standard
// output has the number of rules, and TVR byte 3 in hexadecimal, or that the bytes handed in are refused.
#![tactic(auto)]

use cvm::list::{are_results, in_application_currency, rules_in};
use cvm::verify::verify;
use cvm_rules::Circumstances;
use slices::byte;
use start_fields::fields;
use start_fields::fields::Field;
use std::io;
use text_hex::unhex;
use text_input::read_full;
use text_lines::after_word;

fn main(rt: HostRuntime) -> io::Result<()> {
    let mut input = [0u8; 524288];
    let n = read_full(&rt, &mut input);
    answer_all(&rt, &input[..n])
}

fn answer_all(rt: &impl Print, s: &[u8]) -> io::Result<()> {
    for line in s.split_inclusive(|b| *b == b'\n') {
        answer(rt, line)?;
    }
    Ok(())
}

// A line feed at its end is no digit and ends its last word, so it may stay.
fn answer(rt: &impl Print, line: &[u8]) -> io::Result<()> {
    let mut start = [0u8; 21];
    let n = unhex(line, &mut start);
    let words = after_word(line);
    let c = circumstances(&start[0..n], words);
    print_verified(rt, c, after_word(after_word(words)))
}

// From START, and the words that begin with 9F33 and 9F42.
fn circumstances(start: &[u8], words: &[u8]) -> Circumstances {
    let mut capabilities = [0u8; 3];
    unhex(words, &mut capabilities);
    Circumstances {
        amount: fields::amount(start),
        other: fields::other_amount(start),
        kind: byte(fields::bytes(start, Field::TransactionType), 0) as u8,
        home: is_home(start, after_word(words)),
        means: capabilities[1],
    }
}

fn is_home(start: &[u8], words: &[u8]) -> bool {
    let mut application = [0u8; 16];
    let n = unhex(words, &mut application);
    in_application_currency(
        0 < n,
        &application[0..n],
        fields::bytes(start, Field::Currency),
    )
}

fn print_verified(rt: &impl Print, c: Circumstances, words: &[u8]) -> io::Result<()> {
    let mut list = [0u8; 512];
    let n = unhex(words, &mut list);
    let mut results = [0u8; 512];
    let m = unhex(after_word(words), &mut results);
    print_line(rt, c, &list[0..n], &results[0..m])
}

fn print_line(rt: &impl Print, c: Circumstances, list: &[u8], results: &[u8]) -> io::Result<()> {
    text_print::number(rt, rules_in(list))?;
    if are_results(rules_in(list), results) {
        let bits = [verify(list, results, c)];
        text_print::text(rt, b" ")?;
        text_print::bytes(rt, &bits)?;
    } else {
        text_print::text(rt, b" refused")?;
    }
    text_print::text(rt, b"\n")
}
