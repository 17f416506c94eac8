// What a session waits for.
ghost use Rattle.std.specs.Prelude.{◌≡◌};
ghost use Rattle.session_phase.specs.Waiting.{kind_of, awaited, wanted_of, count_due, outcome_of, reason_of};

use crate::{Speaker, Waiting};
use numbers::{ANSWER, CHOICE, START};

// The kind of the entry that has somebody's word.
#[tactic(auto, unfolding(crate::specs::Waiting::kind_of))]
pub fn kind_of(speaker: Speaker) -> u8
    ensures { result ≡ kind_of speaker }
{
    match speaker {
        Speaker::Terminal => START,
        Speaker::Says(word, _) => words::kind(word),
        Speaker::Shopper(_) => CHOICE,
    }
}

// The kind of the entry that a session waits for; 0 where it is over.
#[tactic(auto, unfolding(crate::specs::Waiting::awaited))]
pub fn awaits(waiting: Waiting) -> u8
    ensures { result ≡ awaited waiting }
{
    match waiting {
        Waiting::Searching | Waiting::ForCard(_) => ANSWER,
        Waiting::ForWord(speaker) => kind_of(speaker),
        Waiting::Decided(_, _) | Waiting::Closed => 0,
    }
}

// How many somebody is to hand in.
#[tactic(auto, unfolding(crate::specs::Waiting::wanted_of))]
fn wanted(speaker: Speaker) -> usize
    ensures { result ≡ wanted_of speaker }
{
    match speaker {
        Speaker::Terminal => 0,
        Speaker::Says(_, count) => count,
        Speaker::Shopper(shown) => shown,
    }
}

// How many are wanted of what is counted in the word that a session waits for; 0 where it waits for none.
#[tactic(auto, unfolding(crate::specs::Waiting::count_due))]
pub fn count_due(waiting: Waiting) -> usize
    ensures { result ≡ count_due waiting }
{
    match waiting {
        Waiting::ForWord(speaker) => wanted(speaker),
        _ => 0,
    }
}

// 1 approved, 2 declined, 3 terminated; 0 while there is no decision. Two numbers of a state, outcome and reason, so neither is a `From`.
#[tactic(auto, unfolding(crate::specs::Waiting::outcome_of))]
pub fn outcome(waiting: Waiting) -> u8
    ensures { result ≡ outcome_of waiting }
{
    match waiting {
        Waiting::Decided(outcome, _) => outcome,
        _ => 0,
    }
}

// Why the session was terminated; 0 where it was not.
#[tactic(auto, unfolding(crate::specs::Waiting::reason_of))]
pub fn reason(waiting: Waiting) -> u8
    ensures { result ≡ reason_of waiting }
{
    match waiting {
        Waiting::Decided(_, reason) => reason,
        _ => 0,
    }
}
