// The state of a session: what it keeps, how it changes, and the outcome that it says.
#![tactic(auto)]

pub mod change;
pub mod result;

use answer_afl::cursor::Cursor;
use select_search::Stand;
use session_phase::Waiting;
use session_records::{Run, Store};
use start_choosing::LISTING;
use start_fields::fields::FULL;

#[derive(Clone, Copy)]
pub struct State {
    pub waiting: Waiting,
    // START's bytes, of which the first `size` count; no heap, so an array with a length
    pub start: [u8; FULL],
    pub size: usize,
    pub tvr: [u8; 5],
    pub tsi: [u8; 2],
    // 82, once the answer to GPO told it
    pub profile: [u8; 2],
    // the AFL, and the place in it of the next record to ask for
    pub locator: Run,
    pub cursor: Cursor,
    // what the records told
    pub told: Store,
    // START with a list as it was handed in, and where the search for an application stands; its list stands in lent bytes
    pub listing: [u8; LISTING],
    pub stand: Stand,
}
