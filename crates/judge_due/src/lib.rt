// What is due next on a tape that is judged piece by piece: the judge's own expectation, as numbers and bytes.
#![tactic(auto)]

ghost use Rattle.std.specs.Prelude.{◌≡◌, Some};
ghost use Rattle.judge_due.specs.Telling.{handed, with_bytes};
ghost use Rattle.judge_due.specs.Standing.{word_due, command_due, decision_due, due_of};

use judge::UnderWay;
use judge_follow::Judgement;
use judge_stages::Stage;
use numbers::{ANSWER, COMMAND, DECISION};
use session_phase::{awaits, count_due};
use session_state::result::decision;
use slices::{lay, part};

// The kind of no entry: the bytes that are due do not fit the buffer that was lent.
pub const TOO_SHORT: u8 = 255;

// The kind of the entry that is due; and how many bytes it has where they are known, or how many are wanted of what is counted in a word,
// else 0.
#[derive(Clone, Copy)]
pub struct DueNext {
    pub kind: u8,
    pub size: usize,
}

// The bytes that are due, all of them or none.
#[tactic(auto, using(crate::proofs::Laying::no_room, crate::proofs::Laying::has_room))]
fn with_bytes(kind: u8, bytes: &[u8], out: &mut [u8]) -> DueNext
    ensures { handed (Some result) out.new ≡ with_bytes kind bytes.now out.old }
{
    let size = bytes.len();
    if out.len() < size {
        return DueNext {
            kind: TOO_SHORT,
            size,
        };
    }
    lay(out, 0, bytes);
    DueNext { kind, size }
}

#[tactic(auto, unfolding(crate::specs::Standing::word_due))]
fn word(j: Judgement) -> DueNext
    ensures { result ≡ word_due j }
{
    let state = j.state;
    let waiting = state.waiting;
    DueNext {
        kind: awaits(waiting),
        size: count_due(waiting),
    }
}

#[tactic(auto, unfolding(crate::specs::Standing::command_due))]
fn command(j: Judgement, n: usize, out: &mut [u8]) -> DueNext
    ensures { handed (Some result) out.new ≡ command_due n j out.old }
{
    let command = j.command;
    with_bytes(COMMAND, part(&command, 0, n), out)
}

#[tactic(auto, unfolding(crate::specs::Standing::decision_due))]
fn decided(j: Judgement, out: &mut [u8]) -> DueNext
    ensures { handed (Some result) out.new ≡ decision_due j out.old }
{
    let state = j.state;
    let bytes = decision(state);
    with_bytes(DECISION, &bytes, out)
}

// What is due after the pieces handed in so far; none where nothing is.
#[tactic(auto, unfolding(crate::specs::Standing::due_of, crate::specs::Standing::stage_due))]
pub fn due(u: UnderWay, out: &mut [u8]) -> Option<DueNext>
    ensures { handed result out.new ≡ due_of u out.old }
{
    let dialogue = u.dialogue;
    let stage = dialogue.stage;
    match stage {
        Stage::Word => Some(word(dialogue)),
        Stage::Command(n) => Some(command(dialogue, n, out)),
        Stage::Answer => Some(DueNext {
            kind: ANSWER,
            size: 0,
        }),
        Stage::Decision => Some(decided(dialogue, out)),
        Stage::Done | Stage::Closed | Stage::Broken(_) => None,
    }
}
