// One entry further.
ghost use Rattle.std.specs.Prelude.{◌≡◌, length};
ghost use Rattle.commands.specs.Commands.{longest};
ghost use Rattle.judge_follow.specs.Following.{begun, stage_of, staged, advanced, at_command};
ghost use Rattle.judge_follow.specs.Following.{at_silence, at_answer, at_decision, spoken, word_at, led};

use crate::Judgement;
use commands::write::LONGEST;
use dol_fill::count::sum;
use judge_stages::Stage;
use numbers::{ANSWER, COMMAND, DECISION, SILENCE};
use session_events::event;
use session_phase::{Reply, Speaker, Waiting, is_allowed, kind_of};
use session_state::change::fresh;
use session_state::result::decision;
use slices::alike;

// An entry of the tape: which one it is, and what its block holds.
#[derive(Clone, Copy)]
struct Entry<'a> {
    index: usize,
    kind: u8,
    payload: &'a [u8],
}

#[tactic(auto, unfolding(crate::specs::Following::begun, slices::specs::Writing::zeros))]
pub fn begin() -> Judgement
    ensures { result ≡ begun }
{
    Judgement {
        stage: Stage::Word,
        state: fresh(),
        command: [0; LONGEST],
        zeros: 0,
    }
}

#[tactic(auto, unfolding(crate::specs::Following::stage_of))]
fn stage_of(reply: Reply) -> Stage
    ensures { result ≡ stage_of reply }
{
    match reply {
        Reply::Command(n) => Stage::Command(n),
        Reply::Due(_) => Stage::Word,
        Reply::Decided => Stage::Decision,
        Reply::Closed | Reply::Refused(_) => Stage::Closed,
    }
}

// The same judgement at another stage.
#[tactic(auto, unfolding(crate::specs::Following::staged))]
fn stage(j: Judgement, stage: Stage) -> Judgement
    ensures { result ≡ staged stage j }
{
    let state = j.state;
    let command = j.command;
    Judgement {
        stage,
        state,
        command,
        zeros: j.zeros,
    }
}

// A step of the session.
#[tactic(auto, unfolding(crate::specs::Following::advanced, crate::specs::Following::moving, session_moves::specs::Moves::played))]
fn advance(j: Judgement, payload: &[u8]) -> Judgement
    ensures { result ≡ advanced j payload.now }
{
    let mut command = j.command;
    let before = j.state;
    let step = event::step(before, payload, &mut command);
    let state = step.state;
    let reply = step.reply;
    let zeros = sum(j.zeros, step.zeros);
    Judgement {
        stage: stage_of(reply),
        state,
        command,
        zeros,
    }
}

fn command_of(j: Judgement) -> [u8; LONGEST]
    ensures { (result ≡ j.command) × (length j.command ≡ longest) }
{
    j.command
}

#[tactic(auto, unfolding(crate::specs::Following::at_command, slices::specs::Choice::pick))]
fn at_command(j: Judgement, n: usize, e: Entry<'_>) -> Judgement
    ensures { result ≡ at_command n j e.entry.index e.entry.kind e.entry.payload.now }
{
    if e.kind != COMMAND {
        return stage(j, Stage::Broken(e.index));
    }
    let command = command_of(j);
    if alike(e.payload, slices::part(&command, 0, n)) {
        stage(j, Stage::Answer)
    } else {
        stage(j, Stage::Broken(e.index))
    }
}

// A silence with no payload closes the session.
#[tactic(auto, unfolding(crate::specs::Following::at_silence, slices::specs::Choice::pick))]
fn at_silence(j: Judgement, e: Entry<'_>) -> Judgement
    ensures { result ≡ at_silence j e.entry.index e.entry.kind e.entry.payload.now }
{
    if e.kind == SILENCE && e.payload.is_empty() {
        stage(j, Stage::Closed)
    } else {
        stage(j, Stage::Broken(e.index))
    }
}

#[tactic(auto, unfolding(crate::specs::Following::at_answer, slices::specs::Choice::pick))]
fn at_answer(j: Judgement, e: Entry<'_>) -> Judgement
    ensures { result ≡ at_answer j e.entry.index e.entry.kind e.entry.payload.now }
{
    if e.kind == ANSWER {
        advance(j, e.payload)
    } else {
        at_silence(j, e)
    }
}

#[tactic(auto, unfolding(crate::specs::Following::at_decision, slices::specs::Choice::pick))]
fn at_decision(j: Judgement, e: Entry<'_>) -> Judgement
    ensures { result ≡ at_decision j e.entry.index e.entry.kind e.entry.payload.now }
{
    if e.kind != DECISION {
        return stage(j, Stage::Broken(e.index));
    }
    let state = j.state;
    let due = decision(state);
    if alike(e.payload, &due) {
        stage(j, Stage::Done)
    } else {
        stage(j, Stage::Broken(e.index))
    }
}

// Somebody's word: of the kind that is due, and one that may be said.
#[tactic(auto, unfolding(crate::specs::Following::spoken, slices::specs::Choice::pick))]
fn by_speaker(j: Judgement, speaker: Speaker, e: Entry<'_>) -> Judgement
    ensures { result ≡ spoken speaker j e.entry.index e.entry.kind e.entry.payload.now }
{
    if e.kind == kind_of(speaker) && is_allowed(speaker, e.payload) {
        advance(j, e.payload)
    } else {
        stage(j, Stage::Broken(e.index))
    }
}

#[tactic(auto, unfolding(crate::specs::Following::word_at))]
fn at_word(j: Judgement, e: Entry<'_>) -> Judgement
    ensures { result ≡ word_at j.state.waiting j e.entry.index e.entry.kind e.entry.payload.now }
{
    let state = j.state;
    let waiting = state.waiting;
    match waiting {
        Waiting::ForWord(speaker) => by_speaker(j, speaker, e),
        Waiting::Searching | Waiting::ForCard(_) | Waiting::Decided(_, _) | Waiting::Closed => {
            stage(j, Stage::Broken(e.index))
        }
    }
}

// The entry at an index, where the block that holds it is good: nothing may follow a decision or a closing silence, and what is broken
// stays broken. The test stands here and not in the caller, for whom it would be one more copy of the judgement (docs/SPEED.md).
#[tactic(auto, unfolding(crate::specs::Following::led, crate::specs::Following::fed_at, slices::specs::Choice::pick))]
pub fn feed(j: Judgement, good: bool, index: usize, kind: u8, payload: &[u8]) -> Judgement
    ensures { result ≡ led good j index kind payload.now }
{
    if !good {
        return j;
    }
    let e = Entry {
        index,
        kind,
        payload,
    };
    let due = j.stage;
    match due {
        Stage::Word => at_word(j, e),
        Stage::Command(n) => at_command(j, n, e),
        Stage::Answer => at_answer(j, e),
        Stage::Decision => at_decision(j, e),
        Stage::Done => stage(j, Stage::Broken(index)),
        Stage::Closed => stage(j, Stage::Broken(index)),
        Stage::Broken(_) => j,
    }
}
