// What somebody other than the card says after START: which words there are, the kind of the entry that has each, what may be said, and
// the number with which anything else is turned away.
#![tactic(auto)]

ghost use Rattle.std.specs.Prelude.{◌≡◌};
ghost use Rattle.words.specs.Words.{word_kind, word_allowed, word_refusal};
ghost use Rattle.words.specs.Choice.{is_choice};

use cvm::list::are_results;
use decide_requests::reply::is_reply;
use numbers::{HOST, REFUSED_HOST, REFUSED_RESULTS, RESULTS};
use slices::byte;

// The issuer's reply; the results of cardholder verification.
#[derive(Clone, Copy)]
pub enum Word {
    Host,
    Results,
}

// Of a word two numbers are asked, its kind and its refusal, so neither is a `From`.
pub fn kind(word: Word) -> u8
    ensures { result ≡ word_kind word }
{
    match word {
        Word::Host => HOST,
        Word::Results => RESULTS,
    }
}

// Whether a word may be said: so many results where they are counted.
pub fn is_allowed(word: Word, count: usize, p: &[u8]) -> bool
    ensures { result ≡ word_allowed word count p.now }
{
    match word {
        Word::Host => is_reply(p),
        Word::Results => are_results(count, p),
    }
}

// The line of 01's table for one that may not be said.
pub fn refusal(word: Word) -> usize
    ensures { result ≡ word_refusal word }
{
    match word {
        Word::Host => REFUSED_HOST,
        Word::Results => REFUSED_RESULTS,
    }
}

// Whether the shopper may choose so, of as many as were shown.
#[tactic(auto, unfolding(crate::specs::Choice::is_choice, slices::specs::Tests::every, slices::specs::Choice::pick))]
pub fn is_choice(shown: usize, p: &[u8]) -> bool
    ensures { result ≡ is_choice shown p.now }
{
    let place = byte(p, 0);
    p.len() == 1 && (place < shown || place == 0xFF)
}
