// What goes out after a block that is invalid or not allowed: an R-block, or a block of ours once more; or the end.
#![tactic(auto)]

ghost use Rattle.std.specs.Prelude.{◌≡◌};
ghost use Rattle.t1_again.specs.Again.{goes_out, ended_by, refused_as, ready_for, same_again, information_again, wrong as wrong_in};
ghost use Rattle.t1_again.specs.Again.{stays_open, exhausted as exhausted_in};

use t1_block::{What, pcb_of_r};
use t1_state::{Act, Counts, End, Last, Phase, Refusal, Role, State, Turn};

pub fn goes_out(s: State) -> Turn
    ensures { result ≡ goes_out s }
{
    Turn {
        state: s,
        act: Act::Send,
    }
}

pub fn ended_by(s: State, e: End) -> Turn
    ensures { result ≡ ended_by e s }
{
    Turn {
        state: s.at_phase(Phase::Over),
        act: Act::End(e),
    }
}

pub fn refused_as(s: State, why: Refusal) -> Turn
    ensures { result ≡ refused_as why s }
{
    Turn {
        state: s,
        act: Act::Refuse(why),
    }
}

// An R-block for the I-block that we expect.
#[tactic(auto, unfolding(crate::specs::Again::ready_for))]
pub fn ready_for(s: State, code: u8) -> State
    ensures { result ≡ ready_for code s }
{
    let pcb = pcb_of_r(s.numbers.expected, code);
    s.sends(
        Last::Ready(pcb),
        Counts {
            same: 1,
            ..s.counts
        },
    )
}

// The R-block or the request once more.
#[tactic(auto, unfolding(crate::specs::Again::same_again, slices::specs::Choice::pick))]
pub fn same_again(s: State) -> Turn
    ensures { result ≡ same_again s }
{
    let last = s.last;
    let same = s.counts.same;
    if same < s.role.same_limit(last) {
        let more = Counts {
            same: same + 1,
            ..s.counts
        };
        return goes_out(s.sends(last, more));
    }
    exhausted(s)
}

// A card's request for a size stays open; anything else is the end.
#[tactic(auto, unfolding(crate::specs::Again::exhausted, slices::specs::Choice::pick))]
fn exhausted(s: State) -> Turn
    ensures { result ≡ exhausted_in s }
{
    if stays_open(s.role, s.last) {
        return Turn {
            state: s,
            act: Act::Nothing,
        };
    }
    ended_by(s, End::Limit)
}

fn stays_open(role: Role, last: Last) -> bool
    ensures { result ≡ stays_open role last }
{
    matches!((role, last), (Role::Card, Last::Request(What::Ifs, _)))
}

// The I-block once more.
#[tactic(auto, unfolding(crate::specs::Again::information_again, slices::specs::Choice::pick))]
pub fn information_again(s: State) -> Turn
    ensures { result ≡ information_again s }
{
    let information = s.counts.information;
    if information < s.role.information_limit() {
        let more = Counts {
            information: information + 1,
            ..s.counts
        };
        return goes_out(s.sends(Last::Information, more));
    }
    ended_by(s, End::Limit)
}

// A block that is not taken, with the error code for it.
#[tactic(auto, unfolding(crate::specs::Again::wrong, crate::specs::Again::wrong_after))]
pub fn wrong(s: State, code: u8) -> Turn
    ensures { result ≡ wrong_in code s }
{
    match s.last {
        Last::Nothing | Last::Information | Last::Response(_, _) => goes_out(ready_for(s, code)),
        Last::Ready(_) | Last::Request(_, _) => same_again(s),
    }
}
