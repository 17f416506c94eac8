// An event at one end of the line, one turn on: the end afterwards, and what is then to be done.
#![tactic(auto)]

mod ours;

ghost use Rattle.std.specs.Prelude.{◌≡◌};
ghost use Rattle.t1_turns.specs.Turns.{by_phase, on_block, on_silence};

pub use ours::{on_ask, on_hello, on_send};
use slices::byte;
use t1_again::{ended_by, refused_as};
use t1_asking::on_asking;
use t1_block::{Kind, hear};
use t1_line::on_line;
use t1_state::{End, Phase, Refusal, State, Turn};

// A block came.
#[tactic(auto, unfolding(crate::specs::Turns::on_block))]
pub fn on_block(s: State, block: &[u8]) -> Turn
    ensures { result ≡ on_block block.now s }
{
    let value = byte(block, 3) as u8;
    let n = byte(block, 2) as u8;
    by_phase(s, hear(block, s.sizes.ours), value, n)
}

#[tactic(auto, unfolding(crate::specs::Turns::by_phase))]
fn by_phase(s: State, block: Result<Kind, u8>, value: u8, n: u8) -> Turn
    ensures { result ≡ by_phase s.phase block value n s }
{
    match s.phase {
        Phase::Asking => on_asking(s, block, value),
        Phase::Sent | Phase::Receiving => on_line(s, block, value, n),
        Phase::Start | Phase::Due => refused_as(s, Refusal::NotDue),
        Phase::Over => refused_as(s, Refusal::Closed),
    }
}

// No block came in time.
#[tactic(auto, unfolding(crate::specs::Turns::on_silence, crate::specs::Turns::silent_in))]
pub fn on_silence(s: State) -> Turn
    ensures { result ≡ on_silence s }
{
    match s.phase {
        Phase::Asking | Phase::Sent | Phase::Receiving => ended_by(s, End::Silence),
        Phase::Start | Phase::Due => refused_as(s, Refusal::NotDue),
        Phase::Over => refused_as(s, Refusal::Closed),
    }
}
