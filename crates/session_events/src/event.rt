// One event, one step on.
ghost use Rattle.std.specs.Prelude.{◌≡◌};
ghost use Rattle.numbers.specs.Tables.{refused_event};
ghost use Rattle.start_fields.specs.Reading.{reading_of};
ghost use Rattle.decide_requests.specs.Replies.{reply_of};
ghost use Rattle.rulebook.specs.Phase.{says};
ghost use Rattle.rulebook.specs.Turn.{opened, issuer_replied, reply_made, after};
ghost use Rattle.session_phase.specs.declared.Reply.TheVariants.{Refused};
ghost use Rattle.session_state.specs.Reading.{late};
ghost use Rattle.session_state.specs.Keeping.{begun as begun_state};
ghost use Rattle.session_moves.specs.Moves.{played, moved};
ghost use Rattle.session_events.specs.Events.{answer_step, word_step, step as step_of};

use commands::write;
use decide_requests::reply::{HostReply, code_in, reply_of};
use numbers::REFUSED_EVENT;
use session_first::on_results;
use session_moves::Step;
use session_moves::ends::shut;
use session_phase::{Question, Reply, Speaker, Waiting};
use session_second::request_second;
use session_state::State;
use session_state::change::begun;
use words::Word;

// START. What was known before does not matter.
fn on_start(terminal: &[u8], buf: &mut [u8]) -> Step
    ensures { played result buf.new
        ≡ moved (opened (reading_of terminal.now)) (begun_state terminal.now) buf.old }
{
    let n = write::select(terminal, buf);
    Step {
        state: begun(terminal),
        reply: Reply::Command(n),
        zeros: 0,
    }
}

// The issuer's reply; what is none counts as unable.
#[tactic(auto, unfolding(rulebook::specs::Turn::reply_made))]
fn reply_made(h: &[u8]) -> HostReply
    ensures { result ≡ reply_made (reply_of h.now) }
{
    reply_of(h).unwrap_or(HostReply::Unable)
}

#[tactic(auto, unfolding(rulebook::specs::Turn::issuer_replied))]
fn on_reply(s: State, h: &[u8], buf: &mut [u8]) -> Step
    ensures { played result buf.new
        ≡ moved (issuer_replied (late s) (reply_made (reply_of h.now)) h.now) s buf.old }
{
    request_second(s, reply_made(h), code_in(h), buf)
}

#[tactic(auto, unfolding(rulebook::specs::Turn::after))]
fn on_word(s: State, word: Word, p: &[u8], buf: &mut [u8]) -> Step
    ensures { played result buf.new ≡ moved (after (says word (late s)) p.now) s buf.old }
{
    match word {
        Word::Host => on_reply(s, p, buf),
        Word::Results => on_results(s, p, buf),
    }
}

#[tactic(auto, using(crate::proofs::Ends::ends), unfolding(crate::specs::Events::word_step, rulebook::specs::Turn::after))]
fn by_speaker(s: State, speaker: Speaker, p: &[u8], buf: &mut [u8]) -> Step
    ensures { played result buf.new ≡ word_step speaker s p.now buf.old }
{
    match speaker {
        Speaker::Terminal => on_start(p, buf),
        Speaker::Says(word, _) => on_word(s, word, p, buf),
        Speaker::Shopper(_) => shut(s),
    }
}

#[tactic(auto, unfolding(crate::specs::Events::answer_step, session_state::specs::Reading::asked_by))]
fn on_answer(s: State, question: Question, a: &[u8], buf: &mut [u8]) -> Step
    ensures { played result buf.new ≡ answer_step question s a.now buf.old }
{
    match question {
        Question::Select => session_answers::on_select(s, a, buf),
        Question::Options => session_answers::on_options(s, a, buf),
        Question::Record => session_answers::on_record(s, a, buf),
        Question::First(request) => session_answers::on_first(s, request, a, buf),
        Question::Second(request) => session_answers::on_second(s, request, a, buf),
    }
}

fn stay(s: State) -> Step
    ensures { (result.state ≡ s) × (result.reply ≡ Refused refused_event) × (result.zeros ≡ 0) }
{
    Step {
        state: s,
        reply: Reply::Refused(REFUSED_EVENT),
        zeros: 0,
    }
}

// What is waited for, an answer of the card's or somebody else's word; where the session is over, nothing changes. A selection is no part of
// these rules.
#[tactic(auto, using(crate::proofs::Ends::ends), unfolding(crate::specs::Events::step, crate::specs::Events::step_at))]
pub fn step(s: State, p: &[u8], buf: &mut [u8]) -> Step
    ensures { played result buf.new ≡ step_of s p.now buf.old }
{
    match s.waiting {
        Waiting::Searching => shut(s),
        Waiting::ForCard(question) => on_answer(s, question, p, buf),
        Waiting::ForWord(speaker) => by_speaker(s, speaker, p, buf),
        Waiting::Decided(_, _) | Waiting::Closed => stay(s),
    }
}
