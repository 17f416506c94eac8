// A step of a session: from a state to the state that waits for what comes next. The two commands that more than one step asks,
// and the ends that more than one step has.
#![tactic(auto)]

pub mod command;
pub mod ends;
pub mod known;
pub mod options;

use session_phase::Reply;
use session_state::State;

// The state afterwards, what the call is answered with, and how many entries of the list in the command that is now due are zeros for
// want of a value.
#[derive(Clone, Copy)]
pub struct Step {
    pub state: State,
    pub reply: Reply,
    pub zeros: usize,
}
