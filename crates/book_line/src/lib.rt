// The judge's line as an entry of the campaign book.
#![tactic(auto)]

ghost use Rattle.std.specs.Prelude.{◌≡◌};
ghost use Rattle.book_line.specs.Lines.{word_in, number_said, verdict_named, number_of, closes, nothing, fields_said, entry_said};

use book_answer::verdict_number;
use book_block::Entry;
use slices::{alike, part};
use text_lines::decimal::{NO_NUMBER, decimal};
use text_lines::{after_word, line_end, word_end};
use verdict::Verdict;

// What a line says of a tape; no verdict where it is not one whole line of the judge's. A fourth number is not entered.
#[tactic(auto, unfolding(crate::specs::Lines::entry_said, slices::specs::Choice::pick))]
pub fn entry_said(tape: u32, text: &[u8]) -> Entry
    ensures { result ≡ entry_said tape text.now }
{
    let end = line_end(text, 0);
    if text.len() <= end + 1 {
        fields_said(tape, part(text, 0, end)).unwrap_or(nothing(tape))
    } else {
        nothing(tape)
    }
}

// Verdict, place and code, and nothing behind them but one number.
#[tactic(auto, unfolding(crate::specs::Lines::fields_said))]
fn fields_said(tape: u32, line: &[u8]) -> Option<Entry>
    ensures { result ≡ fields_said tape line.now }
{
    let second = after_word(line);
    let third = after_word(second);
    let place = number_said(second)?;
    let code = number_said(third)?;
    is_closed(after_word(third)).then_some(Entry {
        tape,
        verdict: number_of(verdict_named(word_in(line))),
        place,
        code,
    })
}

// The verdict's number in a block; 0 where there is none.
#[tactic(auto, unfolding(crate::specs::Lines::number_of))]
fn number_of(verdict: Option<Verdict>) -> u8
    ensures { result ≡ number_of verdict }
{
    match verdict {
        Some(v) => verdict_number(v),
        None => 0,
    }
}

// An entry without a verdict, which a book refuses.
fn nothing(tape: u32) -> Entry
    ensures { result ≡ nothing tape }
{
    Entry {
        tape,
        verdict: 0,
        place: 0,
        code: 0,
    }
}

// Whether nothing is left of a line, or one number.
#[tactic(auto, unfolding(crate::specs::Lines::closes, crate::specs::Lines::number_said, slices::specs::Choice::pick))]
fn is_closed(rest: &[u8]) -> bool
    ensures { result ≡ closes rest.now }
{
    rest.is_empty() || number_said(rest).is_some() && after_word(rest).is_empty()
}

// The verdict that a word names, if it names one.
#[tactic(auto, unfolding(crate::specs::Lines::verdict_named, verdict_line::specs::Line::word_of, slices::specs::Choice::pick))]
fn verdict_named(word: &[u8]) -> Option<Verdict>
    ensures { result ≡ verdict_named word.now }
{
    if alike(word, b"PASS") {
        Some(Verdict::Pass)
    } else if alike(word, b"FAIL") {
        Some(Verdict::Fail)
    } else if alike(word, b"INCONCLUSIVE") {
        Some(Verdict::Inconclusive)
    } else if alike(word, b"UNREADABLE") {
        Some(Verdict::Unreadable)
    } else {
        None
    }
}

// The first word of a text as a number of four bytes, where it is one.
#[tactic(auto, unfolding(crate::specs::Lines::number_said, slices::specs::Choice::pick))]
fn number_said(text: &[u8]) -> Option<u32>
    ensures { result ≡ number_said text.now }
{
    let n = decimal(word_in(text));
    if n < NO_NUMBER { Some(n as u32) } else { None }
}

// The first word of a text.
#[tactic(auto, unfolding(crate::specs::Lines::word_in))]
fn word_in(s: &[u8]) -> &[u8]
    ensures { result.now ≡ word_in s.now }
{
    part(s, 0, word_end(s, 0))
}
