// What a byte of the card's means, where a procedure byte or a status is due.
ghost use Rattle.std.specs.Prelude.{◌≡◌};
ghost use Rattle.t0_state.specs.Bytes.{ins_of, meaning_of, comes_in, may_get, may_repeat, goes_on};

use crate::{Header, Sent, State};
use apdu::{Case, Trailer, is_status, is_warning};

// Move all the bytes that are left, or the next one; '60', '61', '6C'; a status begins; or none of these.
#[derive(Clone, Copy)]
pub enum Meaning {
    All,
    Next,
    Wait,
    Get,
    Repeat,
    Status,
    Strange,
}

#[tactic(auto, unfolding(slices::specs::Choice::pick, crate::specs::Bytes::complement, crate::specs::Bytes::meaning_of))]
pub fn meaning_of(ins: u8, b: u8) -> Meaning
    ensures { result ≡ meaning_of ins b }
{
    match b {
        _ if b == ins => Meaning::All,
        _ if b == 255 - ins => Meaning::Next,
        0x60 => Meaning::Wait,
        0x61 => Meaning::Get,
        0x6C => Meaning::Repeat,
        _ if is_status(b) => Meaning::Status,
        _ => Meaning::Strange,
    }
}

impl State {
    // INS of the header that the card is answering.
    #[tactic(auto, unfolding(crate::specs::Bytes::ins_for, crate::specs::Bytes::ins_of))]
    pub fn ins(&self) -> u8
        ensures { result ≡ ins_of self.now }
    {
        match self.header.sent {
            Sent::Own(_) => self.command.ins,
            Sent::GetResponse => 0xC0,
        }
    }
}

impl Sent {
    // Whether the header's bytes come from the card.
    #[tactic(auto, unfolding(crate::specs::Bytes::comes_in))]
    pub fn comes_in(self) -> bool
        ensures { result ≡ comes_in self }
    {
        matches!(self, Sent::Own(Case::Two) | Sent::GetResponse)
    }
}

impl Header {
    // Whether '61' is in its place.
    #[tactic(auto, unfolding(crate::specs::Bytes::may_get_after, crate::specs::Bytes::may_get))]
    pub fn may_get(self) -> bool
        ensures { result ≡ may_get self }
    {
        match self.sent {
            Sent::Own(Case::Two) | Sent::GetResponse => true,
            Sent::Own(Case::Four) => self.left == 0,
            Sent::Own(Case::One | Case::Three) => false,
        }
    }

    // Whether '6C' is in its place.
    #[tactic(auto, unfolding(slices::specs::Choice::pick, crate::specs::Bytes::may_repeat))]
    pub fn may_repeat(self) -> bool
        ensures { result ≡ may_repeat self }
    {
        self.sent.comes_in() && self.left == self.size
    }

    // Whether a status is followed by GET RESPONSE.
    #[tactic(auto, unfolding(slices::specs::Choice::pick, crate::specs::Bytes::goes_on_after, crate::specs::Bytes::goes_on))]
    pub fn goes_on(self, status: Trailer) -> bool
        ensures { result ≡ goes_on self status }
    {
        match self.sent {
            Sent::Own(Case::Four) => self.left == 0 && is_warning(status),
            _ => false,
        }
    }
}
