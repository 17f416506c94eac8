// The kernel: a session is handed in whole and handed back whole, one step on. A call is turned away first, and only then taken.
#![tactic(auto)]

mod calls;

use session_phase::Reply;
use session_state::State;

// What can be read off a session is read off its state; beside it, how many entries of the lists filled so far are zeros for want of a
// value.
#[derive(Clone, Copy)]
pub struct Session {
    pub state: State,
    pub zeros: usize,
}

#[derive(Clone, Copy)]
pub struct Step {
    pub session: Session,
    pub reply: Reply,
}
