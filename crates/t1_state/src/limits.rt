// How often a block may go out, and how long its field may be.
ghost use Rattle.std.specs.Prelude.{◌≡◌, ◌≤◌, ◌-◌, min};
ghost use Rattle.t1_state.specs.Limits.{room, more_of, information_limit, asking_limit, card_limit, same_limit, piece_at};

use crate::{Last, Message, Role};
use t1_block::What;

// The longest field of a block of ours, by what the other end takes.
#[tactic(auto, unfolding(crate::specs::Limits::room, slices::specs::Choice::pick))]
pub fn room_for(theirs: u8) -> usize
    ensures { (result ≡ room theirs) × (result ≤ 254) }
{
    if theirs == 0 {
        return 1;
    }
    if theirs <= 254 { theirs as usize } else { 254 }
}

impl Message {
    // Whether something of the message follows the piece that is out.
    #[tactic(auto, unfolding(crate::specs::Limits::more_of))]
    pub fn has_more(self) -> bool
        ensures { result ≡ more_of self }
    {
        self.at < self.length && self.size < self.length - self.at
    }

    // The piece of a message from a place on.
    pub fn piece_at(self, at: usize, theirs: u8) -> Message
        ensures { result ≡ piece_at theirs at self }
    {
        let left = self.length.saturating_sub(at);
        Message {
            at,
            size: room_for(theirs).min(left),
            ..self
        }
    }
}

impl Role {
    // How often an I-block may go out until it is acknowledged.
    pub fn information_limit(self) -> usize
        ensures { (result ≡ information_limit self) × (result ≤ 3) }
    {
        match self {
            Role::Terminal => 3,
            Role::Card => 2,
        }
    }

    // How often in a row an R-block or a request may go out.
    pub fn same_limit(self, last: Last) -> usize
        ensures { (result ≡ same_limit self last) × (result ≤ 3) }
    {
        match self {
            Role::Terminal => 3,
            Role::Card => card_limit(last),
        }
    }
}

fn card_limit(last: Last) -> usize
    ensures { (result ≡ card_limit last) × (result ≤ 3) }
{
    match last {
        Last::Request(w, _) => asking_limit(w),
        Last::Nothing | Last::Information | Last::Ready(_) | Last::Response(_, _) => 2,
    }
}

// How often a request may go out.
fn asking_limit(w: What) -> usize
    ensures { (result ≡ asking_limit w) × (result ≤ 3) }
{
    match w {
        What::Ifs => 3,
        What::Resynch | What::Abort | What::Wtx => 2,
    }
}
