// What the next entry of a tape must be, and what is said of a tape that ends there.
#![tactic(auto)]

ghost use Rattle.std.specs.Prelude.{◌≡◌};
ghost use Rattle.verdict.specs.Saying.{says};
ghost use Rattle.verdict.specs.declared.Verdict.{Verdict as Said};
ghost use Rattle.judge_stages.specs.Stages.{said_at};

use verdict::{Ruling, Verdict};

// What the next entry must be: the word of somebody other than the card, a command, the card's answer, the decision; or how the
// reading ended: with a decision, with a closing silence, or at the entry that cannot be.
#[derive(Clone, Copy)]
pub enum Stage {
    Word,
    Command(usize),
    Answer,
    Decision,
    Done,
    Closed,
    Broken(usize),
}

fn ruling(verdict: Verdict, place: usize, code: usize) -> Ruling
    ensures { result ≡ says verdict place code }
{
    Ruling {
        verdict,
        place,
        code,
    }
}

pub fn unreadable(place: usize, code: usize) -> Ruling
    ensures { result ≡ says Said.Unreadable place code }
{
    ruling(Verdict::Unreadable, place, code)
}

// After so many entries.
pub fn conclude(stage: Stage, entries: usize) -> Ruling
    ensures { result ≡ said_at stage entries }
{
    match stage {
        Stage::Done => ruling(Verdict::Pass, entries, 0),
        Stage::Broken(place) => ruling(Verdict::Fail, place, 0),
        Stage::Word => ruling(Verdict::Inconclusive, entries, 0),
        Stage::Command(_) => ruling(Verdict::Inconclusive, entries, 0),
        Stage::Answer => ruling(Verdict::Inconclusive, entries, 0),
        Stage::Decision => ruling(Verdict::Inconclusive, entries, 0),
        Stage::Closed => ruling(Verdict::Inconclusive, entries, 0),
    }
}
