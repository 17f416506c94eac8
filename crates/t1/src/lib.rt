// T=1: one end of the line, terminal or card. The state goes in by value at each event and comes back with what is to be sent; the
// caller lends the room for the block and for the message that comes in.
#![tactic(auto)]

mod doing;

ghost use Rattle.std.specs.Prelude.{◌≡◌};
ghost use Rattle.t1.specs.Steps.{step_of, out_after, message_after, first_phase, fresh_end, block as block_came};
ghost use Rattle.t1.specs.Steps.{silence as no_block, hello as hello_due, ask as ask_for, send as send_message};

use apdu::ANSWER_MOST;
use doing::{finish, keep, reply_of};
use t1_block::{LONGEST, What, information};
use t1_state::{Counts, End, Last, Message, Numbers, Phase, Refusal, Role, Sizes, State};
use t1_turns::{on_ask, on_block, on_hello, on_send, on_silence};

// Nothing is to be sent; so many bytes of the lent buffer are; they are, and so many of the block's field were taken; the message
// is whole, with so many bytes, the last of them from this field; how this end stopped; a refusal. Not a `Result`: a refusal too comes
// with the state, as each event's theorem says.
#[derive(Clone, Copy)]
pub enum Reply {
    Nothing,
    Send(usize),
    Took { send: usize, inf: usize },
    Whole { message: usize, inf: usize },
    End(End),
    Refused(Refusal),
}

#[derive(Clone, Copy)]
pub struct Step {
    pub state: State,
    pub reply: Reply,
}

// An end at the beginning, with the longest fields that the other end takes, and that it takes itself.
pub fn fresh(role: Role, theirs: u8, ours: u8) -> State
    ensures { result ≡ fresh_end role theirs ours }
{
    State {
        role,
        phase: first_phase(role),
        last: Last::Nothing,
        numbers: Numbers {
            next: false,
            expected: false,
        },
        sizes: Sizes { theirs, ours },
        counts: Counts {
            information: 0,
            same: 0,
        },
        message: Message {
            bytes: [0u8; ANSWER_MOST],
            length: 0,
            at: 0,
            size: 0,
        },
        received: 0,
    }
}

fn first_phase(role: Role) -> Phase
    ensures { result ≡ first_phase role }
{
    match role {
        Role::Terminal => Phase::Start,
        Role::Card => Phase::Receiving,
    }
}

// A block came: any bytes.
#[tactic(auto, unfolding(crate::specs::Steps::step_of, crate::specs::Steps::out_after, crate::specs::Steps::message_after, crate::specs::Steps::turn_of, crate::specs::Steps::field_of))]
pub fn receive(
    s: State,
    block: &[u8],
    out: &mut [u8; LONGEST],
    message: &mut [u8; ANSWER_MOST],
) -> Step
    ensures value { result ≡ step_of s (block_came block.now) }
    ensures out_after { out.new ≡ out_after s (block_came block.now) out.old }
    ensures message_after { message.new ≡ message_after s (block_came block.now) message.old }
{
    let t = on_block(s, block);
    let inf = information(block);
    keep(t.act, s.received, inf, message);
    finish(t, inf.len(), out)
}

// No block came in time.
#[tactic(auto, using(crate::proofs::Silence::silent_quiet), unfolding(crate::specs::Steps::step_of, crate::specs::Steps::done_by, crate::specs::Steps::turn_of, crate::specs::Steps::field_of))]
pub fn silent(s: State) -> Step
    ensures { result ≡ step_of s no_block }
{
    let t = on_silence(s);
    Step {
        state: t.state,
        reply: reply_of(t.act, 0, 0),
    }
}

// The terminal's first request.
#[tactic(auto, unfolding(crate::specs::Steps::step_of, crate::specs::Steps::out_after, crate::specs::Steps::turn_of, crate::specs::Steps::field_of))]
pub fn hello(s: State, out: &mut [u8; LONGEST]) -> Step
    ensures value { result ≡ step_of s hello_due }
    ensures out_after { out.new ≡ out_after s hello_due out.old }
{
    finish(on_hello(s), 0, out)
}

// A card asks for another size of its own, or for more time.
#[tactic(auto, unfolding(crate::specs::Steps::step_of, crate::specs::Steps::out_after, crate::specs::Steps::turn_of, crate::specs::Steps::field_of))]
pub fn ask(s: State, w: What, v: u8, out: &mut [u8; LONGEST]) -> Step
    ensures value { result ≡ step_of s (ask_for w v) }
    ensures out_after { out.new ≡ out_after s (ask_for w v) out.old }
{
    finish(on_ask(s, w, v), 0, out)
}

// A command, or the card's answer, is to be sent.
#[tactic(auto, unfolding(crate::specs::Steps::step_of, crate::specs::Steps::out_after, crate::specs::Steps::turn_of, crate::specs::Steps::field_of))]
pub fn send(s: State, m: &[u8], out: &mut [u8; LONGEST]) -> Step
    ensures value { result ≡ step_of s (send_message m.now) }
    ensures out_after { out.new ≡ out_after s (send_message m.now) out.old }
{
    finish(on_send(s, m), 0, out)
}
