// When a call of a session is turned away. The event is handed in as the entry that it would be on a tape, by its kind and payload.
#![tactic(auto)]

ghost use Rattle.std.specs.Prelude.{◌≡◌};
ghost use Rattle.tape_read.specs.Entries.{entry};
ghost use Rattle.slices.specs.Choice.{first_of};
ghost use Rattle.kernel_refusals.specs.Refusals.{is_due, start_bad, answer_bad, word_lines, call_refusal};

use commands::write::LONGEST;
use numbers::{
    ANSWER, REFUSED_ANSWER, REFUSED_BUFFER, REFUSED_EVENT, REFUSED_OVER, REFUSED_START, SILENCE,
    START,
};
use session_phase::{Waiting, awaits, is_allowed, refusal_by};
use start_valid::begins_session;
use tape_read::PAYLOAD;

// Whether the event is the one due.
#[tactic(auto, unfolding(crate::specs::Refusals::is_due, slices::specs::Choice::pick))]
fn is_due(waiting: Waiting, kind: u8, payload: &[u8]) -> bool
    ensures { result ≡ is_due waiting (entry kind payload.now) }
{
    let due = awaits(waiting);
    if kind == SILENCE {
        due == ANSWER && payload.is_empty()
    } else {
        kind == due
    }
}

#[tactic(auto, unfolding(crate::specs::Refusals::start_bad))]
fn is_start_bad(kind: u8, payload: &[u8]) -> bool
    ensures { result ≡ start_bad (entry kind payload.now) }
{
    kind == START && !begins_session(payload)
}

#[tactic(auto, unfolding(crate::specs::Refusals::answer_bad))]
fn is_answer_bad(kind: u8, payload: &[u8]) -> bool
    ensures { result ≡ answer_bad (entry kind payload.now) }
{
    kind == ANSWER && PAYLOAD < payload.len()
}

// The number of a word that may not be said; 0 where it may, or none is waited for.
#[tactic(auto, unfolding(crate::specs::Refusals::word_lines, slices::specs::Choice::first_of, slices::specs::Choice::pick))]
fn word_refusal(waiting: Waiting, p: &[u8]) -> usize
    ensures { result ≡ first_of (word_lines waiting p.now) }
{
    match waiting {
        Waiting::ForWord(speaker) if !is_allowed(speaker, p) => refusal_by(speaker),
        _ => 0,
    }
}

// The number of the first line of 01's table that applies; 0 where none does, and the call is taken.
#[tactic(auto, using(crate::proofs::Picks::by_tests), unfolding(slices::specs::Choice::pick))]
pub fn refusal(waiting: Waiting, kind: u8, payload: &[u8], command: &[u8]) -> usize
    ensures { result ≡ call_refusal waiting (entry kind payload.now) command.now }
{
    if command.len() < LONGEST {
        return REFUSED_BUFFER;
    }
    if awaits(waiting) == 0 {
        return REFUSED_OVER;
    }
    if is_start_bad(kind, payload) {
        return REFUSED_START;
    }
    if !is_due(waiting, kind, payload) {
        return REFUSED_EVENT;
    }
    if is_answer_bad(kind, payload) {
        return REFUSED_ANSWER;
    }
    word_refusal(waiting, payload)
}
