// S(request) blocks.
ghost use Rattle.std.specs.Prelude.{◌≡◌};
ghost use Rattle.t1_line.specs.Line.{is_ifs, answers, on_request};

use crate::not_allowed;
use t1_again::ended_by;
use t1_block::What;
use t1_state::{Act, End, Last, Role, State, Turn};

// Whether a value is one that an IFS may have.
#[tactic(auto, unfolding(crate::specs::Line::is_ifs, slices::specs::Tests::between, slices::specs::Tests::every, slices::specs::Choice::pick))]
pub fn is_ifs(v: u8) -> bool
    ensures { result ≡ is_ifs v }
{
    (0x10..=0xFE).contains(&v)
}

// An end answers with the same value, or it is not one that is asked this.
#[tactic(auto, unfolding(crate::specs::Line::on_request, t1_again::specs::Again::for_role, slices::specs::Choice::pick))]
pub fn on_request(s: State, w: What, v: u8) -> Turn
    ensures { result ≡ on_request w v s }
{
    match (w, s.role) {
        (What::Ifs, _) if is_ifs(v) => answer(s.with_sizes(v, s.sizes.ours), w, v),
        (What::Wtx, Role::Terminal) => answer(s, w, v),
        (What::Abort, Role::Terminal) => ended_by(s, End::Abort),
        _ => not_allowed(s),
    }
}

// The response with the same value.
#[tactic(auto, unfolding(crate::specs::Line::answers))]
fn answer(s: State, w: What, v: u8) -> Turn
    ensures { result ≡ answers w v s }
{
    Turn {
        state: s.sends(Last::Response(w, v), s.counts),
        act: Act::Value,
    }
}
