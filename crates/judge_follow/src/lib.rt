// How far a tape is read, entry by entry: the dialogue is replayed, and each entry is compared with what is due.
#![tactic(auto)]

pub mod follow;

use commands::write::LONGEST;
use judge_stages::Stage;
use session_state::State;

// The command that is due stands in the first bytes of `command`; `zeros` counts the list entries that were filled with zeros for want
// of a value.
#[derive(Clone, Copy)]
pub struct Judgement {
    pub stage: Stage,
    pub state: State,
    pub command: [u8; LONGEST],
    pub zeros: usize,
}
