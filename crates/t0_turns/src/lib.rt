// One byte of the card's, one turn on: the exchange afterwards, and what is then to be done.
#![tactic(auto)]

ghost use Rattle.std.specs.Prelude.{◌≡◌, ◌≤◌};
ghost use Rattle.t0_turns.specs.Turns.{closed_on, on_length, on_repeat, on_status, phase_after, on_data, after_byte};

use apdu::{Trailer, asked};
use t0_procedure::on_procedure;
use t0_state::{Act, Phase, Refusal, Sent, State, Turn};

// The most bytes of data that an answer has.
pub const MOST: usize = 4352;

// A state that is over, or that no exchange reaches, takes no byte.
#[tactic(auto, unfolding(slices::specs::Choice::pick, crate::specs::Turns::by_phase, crate::specs::Turns::after_byte))]
pub fn after(s: State, b: u8) -> Turn
    ensures { result ≡ after_byte s b }
{
    if MOST < s.received {
        return closed(s);
    }
    match s.phase {
        Phase::Procedure => on_procedure(s, b),
        Phase::Length61 => on_length(s, Sent::GetResponse, b),
        Phase::Length6C => on_repeat(s, b),
        Phase::Status(a) => on_status(s, a, b),
        Phase::Data(n) => on_data(s, n, b),
        Phase::Over => closed(s),
    }
}

fn closed(s: State) -> Turn
    ensures { result ≡ closed_on s }
{
    Turn {
        state: s,
        act: Err(Refusal::Closed),
    }
}

// A header goes out, with the length that has come.
#[tactic(auto, unfolding(crate::specs::Turns::on_length))]
fn on_length(s: State, sent: Sent, b: u8) -> Turn
    ensures { result ≡ on_length sent s b }
{
    Turn {
        state: s.asking(sent, asked(b)),
        act: Ok(Act::Header(b)),
    }
}

// The same header again.
#[tactic(auto, unfolding(crate::specs::Turns::on_repeat))]
fn on_repeat(s: State, b: u8) -> Turn
    ensures { result ≡ on_repeat s b }
{
    on_length(s, s.header.sent, b)
}

#[tactic(auto, unfolding(slices::specs::Choice::pick, crate::specs::Turns::ending_in, crate::specs::Turns::on_status))]
fn on_status(s: State, a: u8, b: u8) -> Turn
    ensures { result ≡ on_status a s b }
{
    let status = Trailer { sw1: a, sw2: b };
    if s.header.goes_on(status) {
        return Turn {
            state: s.with_trailer(status).asking(Sent::GetResponse, 256),
            act: Ok(Act::Header(0)),
        };
    }
    Turn {
        state: s.at_phase(Phase::Over),
        act: Ok(Act::Answer(s.trailer.unwrap_or(status))),
    }
}

#[tactic(auto, unfolding(crate::specs::Turns::on_data))]
fn on_data(s: State, n: usize, b: u8) -> Turn
    requires { s.received ≤ 4352 }
    ensures { result ≡ on_data n s b }
{
    Turn {
        state: s.with_received(s.received + 1).at_phase(phase_after(n)),
        act: Ok(Act::Keep(b)),
    }
}

// One of so many bytes of data has come.
#[tactic(auto, unfolding(slices::specs::Choice::pick, crate::specs::Turns::phase_after))]
fn phase_after(n: usize) -> Phase
    ensures { result ≡ phase_after n }
{
    if n <= 1 {
        Phase::Procedure
    } else {
        Phase::Data(n - 1)
    }
}
