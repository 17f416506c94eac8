// A state that waits for what comes next.
ghost use Rattle.std.specs.Prelude.{◌≡◌, ◌%◌};
ghost use Rattle.numbers.specs.Tables.{terminated};
ghost use Rattle.session_moves.specs.Moves.{waiting_for, asked_for};
ghost use Rattle.session_phase.specs.declared.Reply.TheVariants.{Due, Decided as DecidedReply, Closed as ClosedReply};
ghost use Rattle.session_phase.specs.declared.Speaker.TheVariants.{Says};
ghost use Rattle.session_phase.specs.declared.Waiting.TheVariants.{ForWord, Decided as DecidedKept, Closed as ClosedKept};
ghost use Rattle.words.specs.Words.{word_kind};

use crate::Step;
use numbers::TERMINATED;
use session_phase::{Question, Reply, Speaker, Waiting};
use session_state::State;
use session_state::change::change;
use words::Word;

// The same state, but for what is waited for.
pub fn wait(s: State, waiting: Waiting, reply: Reply) -> Step
    ensures { result ≡ waiting_for waiting reply s }
{
    let tvr = s.tvr;
    let tsi = s.tsi;
    let cursor = s.cursor;
    Step {
        state: change(s, waiting, tvr, tsi, cursor),
        reply,
        zeros: 0,
    }
}

// The same state, with a command of n bytes out, and so many entries of its list not supplied.
pub fn ask(s: State, question: Question, n: usize, zeros: usize) -> Step
    ensures { result ≡ asked_for question n zeros s }
{
    let tvr = s.tvr;
    let tsi = s.tsi;
    let cursor = s.cursor;
    Step {
        state: change(s, Waiting::ForCard(question), tvr, tsi, cursor),
        reply: Reply::Command(n),
        zeros,
    }
}

// The same state, with somebody's word due, and so many wanted of what is counted in it.
pub fn hear(s: State, word: Word, count: usize) -> Step
    ensures { result ≡ waiting_for (ForWord (Says word count)) (Due (word_kind word)) s }
{
    wait(
        s,
        Waiting::ForWord(Speaker::Says(word, count)),
        Reply::Due(words::kind(word)),
    )
}

// Closed, since these rules go no further.
pub fn shut(s: State) -> Step
    ensures { result ≡ waiting_for ClosedKept ClosedReply s }
{
    wait(s, Waiting::Closed, Reply::Closed)
}

pub fn decide(s: State, outcome: u8) -> Step
    ensures { result ≡ waiting_for (DecidedKept outcome 0) DecidedReply s }
{
    wait(s, Waiting::Decided(outcome, 0), Reply::Decided)
}

// Terminated, for a reason: 01 has ten, and of a larger number the low byte is kept.
pub fn end(s: State, reason: usize) -> Step
    ensures { result ≡ waiting_for (DecidedKept terminated (reason % 256)) DecidedReply s }
{
    wait(
        s,
        Waiting::Decided(TERMINATED, (reason % 256) as u8),
        Reply::Decided,
    )
}
