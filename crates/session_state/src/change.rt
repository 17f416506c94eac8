// States made anew, and changed.
ghost use Rattle.std.specs.Prelude.{◌≡◌};
ghost use Rattle.session_state.specs.Keeping.{with_told, with_options, with_stand, changed};
ghost use Rattle.session_state.specs.Keeping.{state_at, fresh as fresh_state, begun as begun_state, begun_listing};

use crate::State;
use answer_afl::cursor;
use answer_afl::cursor::Cursor;
use select_search::{Stand, turns};
use session_phase::{Question, Speaker, Waiting};
use session_records::{Store, records, runs};
use slices::lay;
use start_choosing::{LISTING, first_alone};
use start_fields::fields::FULL;

#[tactic(auto, unfolding(crate::specs::Keeping::state_at, slices::specs::Writing::zeros))]
fn state_at(waiting: Waiting, start: [u8; FULL], size: usize, listing: [u8; LISTING]) -> State
    ensures { result ≡ state_at waiting start size listing }
{
    State {
        waiting,
        start,
        size,
        tvr: [0; 5],
        tsi: [0; 2],
        profile: [0; 2],
        locator: runs::nothing(),
        cursor: cursor::start(),
        told: records::nothing(),
        listing,
        stand: turns::first(),
    }
}

#[tactic(auto, unfolding(crate::specs::Keeping::fresh, slices::specs::Writing::zeros))]
pub fn fresh() -> State
    ensures { result ≡ fresh_state }
{
    state_at(
        Waiting::ForWord(Speaker::Terminal),
        [0; FULL],
        0,
        [0; LISTING],
    )
}

#[tactic(auto, unfolding(crate::specs::Keeping::begun, slices::specs::Writing::zeros))]
pub fn begun(start: &[u8]) -> State
    ensures { result ≡ begun_state start.now }
{
    let mut bytes = [0; FULL];
    lay(&mut bytes, 0, start);
    state_at(
        Waiting::ForCard(Question::Select),
        bytes,
        start.len(),
        [0; LISTING],
    )
}

// START with a list: the search begins.
#[tactic(auto, unfolding(crate::specs::Keeping::begun_listing, slices::specs::Writing::zeros))]
pub fn begun_listing(start: &[u8]) -> State
    ensures { result ≡ begun_listing start.now }
{
    let alone = first_alone(start);
    let mut listing = [0; LISTING];
    lay(&mut listing, 0, start);
    state_at(Waiting::Searching, alone, FULL, listing)
}

// Where the search stands.
#[tactic(auto, unfolding(crate::specs::Keeping::with_stand))]
pub fn with_stand(s: State, stand: Stand) -> State
    ensures { result ≡ with_stand stand s }
{
    State { stand, ..s }
}

#[tactic(auto, unfolding(crate::specs::Keeping::with_told))]
pub fn with_told(s: State, told: Store) -> State
    ensures { result ≡ with_told told s }
{
    State { told, ..s }
}

#[tactic(auto, unfolding(crate::specs::Keeping::with_options, slices::specs::Writing::zeros))]
pub fn with_options(s: State, answer: &[u8]) -> State
    ensures { result ≡ with_options answer.now s }
{
    let mut profile = [0; 2];
    lay(&mut profile, 0, answer_gpo::profile(answer));
    State {
        profile,
        locator: runs::keep(answer_gpo::locator(answer)),
        cursor: cursor::start(),
        ..s
    }
}

#[tactic(auto, unfolding(crate::specs::Keeping::changed))]
pub fn change(s: State, waiting: Waiting, tvr: [u8; 5], tsi: [u8; 2], cursor: Cursor) -> State
    ensures { result ≡ changed waiting tvr tsi cursor s }
{
    State {
        waiting,
        tvr,
        tsi,
        cursor,
        ..s
    }
}
