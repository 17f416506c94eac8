// A block received where a request of our own is open.
#![tactic(auto)]

ghost use Rattle.std.specs.Prelude.{◌≡◌};
ghost use Rattle.t1_asking.specs.Asking.{is_response, settled, asked_instead, on_response, asked_kind, on_asking};

use t1_again::{ended_by, same_again};
use t1_block::{Kind, What};
use t1_state::{Act, End, Last, Phase, Role, State, Turn};

#[tactic(auto, unfolding(crate::specs::Asking::on_asking))]
pub fn on_asking(s: State, block: Result<Kind, u8>, value: u8) -> Turn
    ensures { result ≡ on_asking block value s }
{
    match block {
        Ok(kind) => asked_kind(s, kind, value),
        Err(_) => same_again(s),
    }
}

#[tactic(auto, unfolding(crate::specs::Asking::asked_kind))]
fn asked_kind(s: State, kind: Kind, value: u8) -> Turn
    ensures { result ≡ asked_kind kind value s }
{
    match kind {
        Kind::Information(_, _) | Kind::Ready(_) => same_again(s),
        Kind::Request(w) => asked_instead(s, w),
        Kind::Response(w) => on_response(s, w, value),
    }
}

#[tactic(auto, unfolding(crate::specs::Asking::asked_instead, t1_again::specs::Again::for_role))]
fn asked_instead(s: State, w: What) -> Turn
    ensures { result ≡ asked_instead w s }
{
    match (w, s.role) {
        (What::Abort, Role::Terminal) => ended_by(s, End::Abort),
        _ => same_again(s),
    }
}

#[tactic(auto, unfolding(crate::specs::Asking::on_response, slices::specs::Choice::pick))]
fn on_response(s: State, w: What, v: u8) -> Turn
    ensures { result ≡ on_response w v s }
{
    if is_response(s.last, w, v) {
        return Turn {
            state: settle(s, w, v).at_phase(Phase::Due),
            act: Act::Nothing,
        };
    }
    same_again(s)
}

#[tactic(auto, unfolding(crate::specs::Asking::is_response, slices::specs::Choice::pick))]
fn is_response(last: Last, w: What, v: u8) -> bool
    ensures { result ≡ is_response last w v }
{
    match last {
        Last::Request(asked, value) => asked == w && value == v,
        Last::Nothing | Last::Information | Last::Ready(_) | Last::Response(_, _) => false,
    }
}

// A new size of ours holds from here on.
fn settle(s: State, w: What, v: u8) -> State
    ensures { result ≡ settled w v s }
{
    match w {
        What::Ifs => s.with_sizes(s.sizes.theirs, v),
        What::Resynch | What::Abort | What::Wtx => s,
    }
}
