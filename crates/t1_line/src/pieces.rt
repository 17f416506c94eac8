// R-blocks, and the pieces of a message that they bring out.
ghost use Rattle.std.specs.Prelude.{◌≡◌, true};
ghost use Rattle.t1_state.specs.Limits.{more_of};
ghost use Rattle.t1_line.specs.Line.{sends_piece, sends_next, on_ready};

use crate::not_allowed;
use t1_again::{goes_out, information_again};
use t1_state::{Counts, Last, Message, Phase, State, Turn};

// A piece goes out for the first time, under our next number.
#[tactic(auto, unfolding(crate::specs::Line::sends_piece))]
pub fn sends_piece(s: State, m: Message) -> State
    ensures { result ≡ sends_piece m s }
{
    let numbers = s.numbers;
    let first = Counts {
        information: 1,
        ..s.counts
    };
    let numbered = s.with_numbers(!numbers.next, numbers.expected);
    numbered
        .with_message(m)
        .at_phase(Phase::Sent)
        .sends(Last::Information, first)
}

// The piece behind the one that is out.
#[tactic(auto, unfolding(crate::specs::Line::sends_next, t1_state::specs::Limits::more_of))]
fn sends_next(s: State) -> State
    requires { more_of s.message ≡ true }
    ensures { result ≡ sends_next s }
{
    let m = s.message;
    sends_piece(s, m.piece_at(m.at + m.size, s.sizes.theirs))
}

#[tactic(auto, unfolding(crate::specs::Line::on_ready, crate::specs::Line::equal, slices::specs::Choice::pick))]
pub fn on_ready(s: State, number: bool) -> Turn
    ensures { result ≡ on_ready number s }
{
    if !matches!(s.phase, Phase::Sent) {
        return not_allowed(s);
    }
    if number != s.numbers.next {
        return information_again(s);
    }
    if s.message.has_more() {
        return goes_out(sends_next(s));
    }
    not_allowed(s)
}
