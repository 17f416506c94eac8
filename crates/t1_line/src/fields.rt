// I-blocks.
ghost use Rattle.std.specs.Prelude.{◌≡◌, ◌+◌, ◌≤◌};
ghost use Rattle.t1_state.specs.Limits.{message_most};
ghost use Rattle.t1_line.specs.Line.{takes_fields, keeps, on_information};

use crate::not_allowed;
use apdu::ANSWER_MOST;
use t1_again::{ended_by, ready_for};
use t1_state::{Act, End, Phase, State, Turn};

#[tactic(auto, unfolding(crate::specs::Line::on_information, crate::specs::Line::equal, slices::specs::Choice::pick))]
pub fn on_information(s: State, number: bool, more: bool, n: u8) -> Turn
    ensures { result ≡ on_information number more n s }
{
    if !takes_fields(s.phase, s.message.has_more()) {
        return not_allowed(s);
    }
    if number != s.numbers.expected {
        return not_allowed(s);
    }
    if ANSWER_MOST - (n as usize) < s.received {
        return ended_by(s, End::Limit);
    }
    keep(s, more, n)
}

fn takes_fields(phase: Phase, more: bool) -> bool
    ensures { result ≡ takes_fields phase more }
{
    match phase {
        Phase::Sent => !more,
        Phase::Receiving => true,
        Phase::Start | Phase::Asking | Phase::Due | Phase::Over => false,
    }
}

#[tactic(auto, unfolding(crate::specs::Line::keeps, slices::specs::Choice::pick))]
fn keep(s: State, more: bool, n: u8) -> Turn
    requires { s.received + n ≤ message_most }
    ensures { result ≡ keeps more n s }
{
    let numbers = s.numbers;
    let total = s.received + n as usize;
    let toggled = s.with_numbers(numbers.next, !numbers.expected);
    if more {
        let kept = toggled.with_received(total).at_phase(Phase::Receiving);
        return Turn {
            state: ready_for(kept, 0),
            act: Act::Keep,
        };
    }
    Turn {
        state: toggled.with_received(0).at_phase(Phase::Due),
        act: Act::Whole(total),
    }
}
