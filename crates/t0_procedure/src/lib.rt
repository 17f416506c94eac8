// T=0: a procedure byte, or the first byte of a status, moves the exchange on.
#![tactic(auto)]

ghost use Rattle.std.specs.Prelude.{◌≡◌, ◌-◌, ◌≤◌};
ghost use Rattle.t0_procedure.specs.Procedure.{refused, onward, moving, on_all, on_next, on_wait, on_get, on_six_c, on_procedure};

use t0_state::bytes::{Meaning, meaning_of};
use t0_state::{Act, Counts, Header, Phase, Refusal, State, Turn};

// How many '60' and how many '61' one command takes.
const WAITS_MOST: usize = 255;

const GETS_MOST: usize = 16;

#[tactic(auto, unfolding(crate::specs::Procedure::by_meaning, crate::specs::Procedure::on_procedure))]
pub fn on_procedure(s: State, b: u8) -> Turn
    ensures { result ≡ on_procedure s b }
{
    match meaning_of(s.ins(), b) {
        Meaning::All => move_all(s),
        Meaning::Next => move_next(s),
        Meaning::Wait => on_wait(s),
        Meaning::Get => on_get(s),
        Meaning::Repeat => on_six_c(s),
        Meaning::Status => onward_to(s, Phase::Status(b)),
        Meaning::Strange => refuse(s, Refusal::Byte),
    }
}

fn refuse(s: State, why: Refusal) -> Turn
    ensures { result ≡ refused why s }
{
    Turn {
        state: s.at_phase(Phase::Over),
        act: Err(why),
    }
}

fn onward_to(s: State, phase: Phase) -> Turn
    ensures { result ≡ onward phase s }
{
    Turn {
        state: s.at_phase(phase),
        act: Ok(Act::Nothing),
    }
}

#[tactic(auto, unfolding(crate::specs::Procedure::on_all))]
fn move_all(s: State) -> Turn
    ensures { result ≡ on_all s }
{
    move_bytes(s, s.header.left)
}

#[tactic(auto, unfolding(slices::specs::Choice::pick, crate::specs::Procedure::on_next))]
fn move_next(s: State) -> Turn
    ensures { result ≡ on_next s }
{
    if s.header.left == 0 {
        return move_bytes(s, 0);
    }
    move_bytes(s, 1)
}

// So many of the header's bytes are moved.
#[tactic(auto, unfolding(slices::specs::Choice::pick, crate::specs::Procedure::moving))]
fn move_bytes(s: State, n: usize) -> Turn
    requires { n ≤ s.header.left }
    ensures { result ≡ moving n s }
{
    if n == 0 {
        return refuse(s, Refusal::Place);
    }
    let header = s.header;
    let moved = s.with_header(Header {
        left: header.left - n,
        ..header
    });
    if header.sent.comes_in() {
        return onward_to(moved, Phase::Data(n));
    }
    Turn {
        state: moved,
        act: Ok(Act::Send(header.size.saturating_sub(header.left), n)),
    }
}

// '60'
#[tactic(auto, unfolding(slices::specs::Choice::pick, crate::specs::Procedure::on_wait))]
fn on_wait(s: State) -> Turn
    ensures { result ≡ on_wait s }
{
    let waits = s.counts.waits;
    if waits < WAITS_MOST {
        let counts = Counts {
            waits: waits + 1,
            ..s.counts
        };
        return Turn {
            state: s.with_counts(counts),
            act: Ok(Act::Nothing),
        };
    }
    refuse(s, Refusal::Many60)
}

// '61'
#[tactic(auto, unfolding(slices::specs::Choice::pick, crate::specs::Procedure::on_get))]
fn on_get(s: State) -> Turn
    ensures { result ≡ on_get s }
{
    let gets = s.counts.gets;
    if GETS_MOST <= gets {
        return refuse(s, Refusal::Many61);
    }
    if s.header.may_get() {
        let counts = Counts {
            gets: gets + 1,
            ..s.counts
        };
        return onward_to(s.with_counts(counts), Phase::Length61);
    }
    refuse(s, Refusal::Place)
}

// '6C'
#[tactic(auto, unfolding(slices::specs::Choice::pick, crate::specs::Procedure::on_six_c))]
fn on_six_c(s: State) -> Turn
    ensures { result ≡ on_six_c s }
{
    if s.counts.repeated {
        return refuse(s, Refusal::Many6C);
    }
    if s.header.may_repeat() {
        let counts = Counts {
            repeated: true,
            ..s.counts
        };
        return onward_to(s.with_counts(counts), Phase::Length6C);
    }
    refuse(s, Refusal::Place)
}
