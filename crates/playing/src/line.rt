// What a line asks, and what is wrong with one that asks nothing.
ghost use Rattle.std.specs.Prelude.{◌≡◌};
ghost use Rattle.playing.specs.Lines.{named, kind_of, all_digits, asked};

use numbers::{ANSWER, HOST, RESULTS, SILENCE, START};
use text_hex::digit_of;

// What can be wrong.
#[derive(Clone, Copy)]
pub enum Fault {
    Unknown,
    TextAfter,
    NoDigits,
    Odd,
}

// The kind of the event that the first word names, as the tape counts it; none for any other word.
#[tactic(auto, unfolding(crate::specs::Lines::kind_of, slices::specs::Choice::pick))]
pub fn kind_of(line: &[u8]) -> Option<u8>
    ensures { result ≡ kind_of line.now }
{
    if is_named(line, b"START") {
        return Some(START);
    }
    if is_named(line, b"ANSWER") {
        return Some(ANSWER);
    }
    if is_named(line, b"SILENCE") {
        return Some(SILENCE);
    }
    if is_named(line, b"HOST") {
        return Some(HOST);
    }
    if is_named(line, b"RESULTS") {
        return Some(RESULTS);
    }
    None
}

// Whether this is a line's first word.
#[tactic(auto, using(crate::proofs::Reading::named_not, crate::proofs::Reading::named_end, crate::proofs::Reading::named_more))]
fn is_named(line: &[u8], word: &[u8]) -> bool
    ensures { result ≡ named word.now line.now }
{
    if !line.starts_with(word) {
        return false;
    }
    match line.get(word.len()) {
        Some(b) => *b == b' ',
        None => true,
    }
}

// The kind of the event that is asked for, where its word and the text behind it are in order.
#[tactic(auto, unfolding(crate::specs::Lines::asked, slices::specs::Choice::pick))]
pub fn asked(kind: Option<u8>, rest: &[u8]) -> Result<u8, Fault>
    ensures { result ≡ asked kind rest.now }
{
    let kind = kind.ok_or(Fault::Unknown)?;
    if rest.is_empty() {
        return Ok(kind);
    }
    if kind == SILENCE {
        return Err(Fault::TextAfter);
    }
    if !all_digits(rest) {
        return Err(Fault::NoDigits);
    }
    if rest.len() % 2 != 0 {
        return Err(Fault::Odd);
    }
    Ok(kind)
}

#[tactic(auto, using(crate::proofs::Reading::digits_next, crate::proofs::Reading::digits_stop, crate::proofs::Reading::digits_end))]
fn all_digits(s: &[u8]) -> bool
    ensures { result ≡ all_digits s.now }
{
    for b in s {
        if 16 <= digit_of(*b as usize) {
            return false;
        }
    }
    true
}
