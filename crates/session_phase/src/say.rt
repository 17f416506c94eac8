// What a session may be told.
ghost use Rattle.std.specs.Prelude.{◌≡◌};
ghost use Rattle.session_phase.specs.Saying.{allowed_by, refusal_by};

use crate::Speaker;
use numbers::{REFUSED_CHOICE, REFUSED_START};
use start_valid::valid_start;

// Whether somebody's word may be taken.
#[tactic(auto, unfolding(crate::specs::Saying::allowed_by))]
pub fn is_allowed(speaker: Speaker, p: &[u8]) -> bool
    ensures { result ≡ allowed_by speaker p.now }
{
    match speaker {
        Speaker::Terminal => valid_start(p),
        Speaker::Says(word, count) => words::is_allowed(word, count, p),
        Speaker::Shopper(shown) => words::is_choice(shown, p),
    }
}

// The line of 01's table for one that may not be taken.
#[tactic(auto, unfolding(crate::specs::Saying::refusal_by))]
pub fn refusal_by(speaker: Speaker) -> usize
    ensures { result ≡ refusal_by speaker }
{
    match speaker {
        Speaker::Terminal => REFUSED_START,
        Speaker::Says(word, _) => words::refusal(word),
        Speaker::Shopper(_) => REFUSED_CHOICE,
    }
}
