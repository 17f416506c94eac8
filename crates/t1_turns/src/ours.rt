// What this end does of itself: the first request, a card's other requests, a message.
ghost use Rattle.std.specs.Prelude.{◌≡◌, length};
ghost use Rattle.t1_turns.specs.Turns.{asks_for, on_hello, may_ask, card_asks, on_ask, message_of, sends_message, on_send};

use apdu::ANSWER_MOST;
use slices::lay;
use t1_again::{goes_out, refused_as};
use t1_block::What;
use t1_line::{is_ifs, sends_piece};
use t1_state::{Counts, Last, Message, Phase, Refusal, Role, State, Turn};

// The terminal's first block.
#[tactic(auto, unfolding(crate::specs::Turns::on_hello, crate::specs::Turns::hello_in))]
pub fn on_hello(s: State) -> Turn
    ensures { result ≡ on_hello s }
{
    match s.phase {
        Phase::Start => goes_out(asks_for(s, What::Ifs, 0xFE)),
        Phase::Over => refused_as(s, Refusal::Closed),
        Phase::Asking | Phase::Due | Phase::Sent | Phase::Receiving => refused_as(
            s,
            Refusal::NotDue,
        ),
    }
}

#[tactic(auto, unfolding(crate::specs::Turns::asks_for))]
fn asks_for(s: State, w: What, v: u8) -> State
    ensures { result ≡ asks_for w v s }
{
    let first = Counts {
        same: 1,
        ..s.counts
    };
    s.at_phase(Phase::Asking).sends(Last::Request(w, v), first)
}

// A card asks for another size, or for more time.
#[tactic(auto, unfolding(crate::specs::Turns::on_ask, crate::specs::Turns::ask_in, t1_again::specs::Again::for_role))]
pub fn on_ask(s: State, w: What, v: u8) -> Turn
    ensures { result ≡ on_ask w v s }
{
    match (s.phase, s.role) {
        (Phase::Due, Role::Card) => card_asks(s, w, v),
        (Phase::Over, _) => refused_as(s, Refusal::Closed),
        _ => refused_as(s, Refusal::NotDue),
    }
}

#[tactic(auto, unfolding(crate::specs::Turns::card_asks, slices::specs::Choice::pick))]
fn card_asks(s: State, w: What, v: u8) -> Turn
    ensures { result ≡ card_asks w v s }
{
    if may_ask(w, v) {
        return goes_out(asks_for(s, w, v));
    }
    refused_as(s, Refusal::Value)
}

fn may_ask(w: What, v: u8) -> bool
    ensures { result ≡ may_ask w v }
{
    match w {
        What::Ifs => is_ifs(v),
        What::Wtx => true,
        What::Resynch | What::Abort => false,
    }
}

// A command, or the card's answer.
#[tactic(auto, unfolding(crate::specs::Turns::on_send, crate::specs::Turns::send_in))]
pub fn on_send(s: State, m: &[u8]) -> Turn
    ensures { result ≡ on_send m.now s }
{
    match s.phase {
        Phase::Due => sends_message(s, m),
        Phase::Over => refused_as(s, Refusal::Closed),
        Phase::Start | Phase::Asking | Phase::Sent | Phase::Receiving => refused_as(
            s,
            Refusal::NotDue,
        ),
    }
}

#[tactic(auto, unfolding(crate::specs::Turns::sends_message, slices::specs::Tests::between, slices::specs::Tests::every, slices::specs::Choice::pick))]
fn sends_message(s: State, m: &[u8]) -> Turn
    ensures { result ≡ sends_message m.now s }
{
    if m.is_empty() || ANSWER_MOST < m.len() {
        return refused_as(s, Refusal::Message);
    }
    goes_out(sends_piece(s, message_of(s.sizes.theirs, m)))
}

// The whole message with zeros behind it, and its first piece.
#[tactic(auto, unfolding(crate::specs::Turns::message_of, slices::specs::Writing::zeros))]
fn message_of(theirs: u8, m: &[u8]) -> Message
    ensures { result ≡ message_of theirs m.now }
{
    let mut bytes = [0u8; ANSWER_MOST];
    lay(&mut bytes, 0, m);
    let whole = Message {
        bytes,
        length: m.len(),
        at: 0,
        size: 0,
    };
    whole.piece_at(0, theirs)
}
