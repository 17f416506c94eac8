// The commands of a session, each beside what stands on a tape: written as it is due, compared, and the card's answer behind it.
#![tactic(auto)]

pub mod ask;
pub mod known;
