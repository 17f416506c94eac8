// The line that says a verdict.
#![tactic(auto)]

ghost use Rattle.std.specs.Prelude.{◌≡◌, ◌+◌, ◌≤◌, length};
ghost use Rattle.slices.specs.Writing.{put, laid};
ghost use Rattle.verdict_line.specs.Line.{word_of, decimal, field_of, line_of, line_size};

use slices::lay;
use verdict::{Finding, Verdict};

// The longest line is INCONCLUSIVE with three numbers of 20 digits: 76 bytes.
pub const LONGEST: usize = 80;

// The line is written at the start of the buffer, and its length is the answer; where it has no room nothing is written.
#[tactic(auto, using(crate::proofs::Printing::line_steps))]
pub fn line(found: Finding, buf: &mut [u8]) -> usize
    ensures size { result ≡ line_size (length buf.old) found }
    ensures text { buf.new ≡ laid (line_of found) 0 buf.old }
{
    let ruling = found.ruling;
    let mut text = [0u8; LONGEST];
    let word = lay_word(&mut text, ruling.verdict);
    let first = lay_field(&mut text, word, ruling.place);
    let second = lay_field(&mut text, first, ruling.code);
    let end = lay_field(&mut text, second, found.zeros);
    text[end] = b'\n';
    if buf.len() < end + 1 {
        return 0;
    }
    lay(buf, 0, &text[..end + 1]);
    end + 1
}

#[tactic(auto, unfolding(crate::specs::Line::word_of))]
fn lay_word(text: &mut [u8], verdict: Verdict) -> usize
    ensures size { (result ≡ length (word_of verdict)) × (result ≤ 12) }
    ensures word { text.new ≡ laid (word_of verdict) 0 text.old }
{
    match verdict {
        Verdict::Pass => {
            lay(text, 0, b"PASS");
            4
        }
        Verdict::Fail => {
            lay(text, 0, b"FAIL");
            4
        }
        Verdict::Inconclusive => {
            lay(text, 0, b"INCONCLUSIVE");
            12
        }
        Verdict::Unreadable => {
            lay(text, 0, b"UNREADABLE");
            10
        }
    }
}

// A space and a number; the answer is where they end.
#[tactic(auto, using(crate::proofs::Printing::field_steps))]
fn lay_field(text: &mut [u8], at: usize, n: usize) -> usize
    requires { at + length (field_of n) ≤ length text.old }
    ensures place { result ≡ at + length (field_of n) }
    ensures field { text.new ≡ put (field_of n) at text.old }
{
    text[at] = b' ';
    lay_number(text, at + 1, n)
}

// The digits of a number, the highest first; the answer is where they end.
#[tactic(auto, using(crate::proofs::Printing::number_steps))]
fn lay_number(text: &mut [u8], at: usize, n: usize) -> usize
    requires { at + length (decimal n) ≤ length text.old }
    ensures place { result ≡ at + length (decimal n) }
    ensures digits { text.new ≡ put (decimal n) at text.old }
{
    if n < 10 {
        text[at] = 0x30 + n as u8;
        return at + 1;
    }
    let end = lay_number(text, at, n / 10);
    text[end] = 0x30 + (n % 10) as u8;
    end + 1
}
