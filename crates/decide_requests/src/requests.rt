// What the terminal asks of the card.
ghost use Rattle.std.specs.Prelude.{◌≡◌};
ghost use Rattle.start_fields.specs.Reading.{reading_of, bytes_of};
ghost use Rattle.session_records.specs.Slots.{told_in};
ghost use Rattle.decide_tvr.specs.Bits.{meet};
ghost use Rattle.decide_requests.specs.Requests.{issuer_code, code_match, denial_match, online_match, default_match};
ghost use Rattle.decide_requests.specs.Requests.{by_type, first_request, when_unable, second_request};

use super::reply::HostReply;
use decide_cryptogram::Cryptogram;
use decide_tvr::bits;
use session_records::slots::{has, value};
use start_fields::fields;
use start_fields::fields::Field;

// The terminal's codes in START, the issuer's among what the records told, and the TVR that they are matched with.
#[derive(Clone, Copy)]
struct Codes<'a> {
    start: &'a [u8],
    told: &'a [u8],
    tvr: [u8; 5],
}

impl<'a> Codes<'a> {
    // Whether the TVR has a bit of the issuer's code; one that is absent is five bytes of `absent`.
    fn issuer_match(self, tag: usize, absent: u8) -> bool
        ensures { result ≡ meet (issuer_code absent (told_in self.entry.told.now tag)) self.entry.tvr }
    {
        if has(self.told, tag) {
            bits::in_both(value(self.told, tag), &self.tvr)
        } else {
            let none = [absent; 5];
            bits::in_both(&none, &self.tvr)
        }
    }

    // Whether the TVR has a bit of the issuer's code or of the terminal's.
    fn code_match(self, tag: usize, absent: u8, which: Field) -> bool
        ensures { result
            ≡ code_match absent (told_in self.entry.told.now tag) (bytes_of which (reading_of self.entry.start.now))
            self.entry.tvr }
    {
        self.issuer_match(tag, absent) || bits::in_both(fields::bytes(self.start, which), &self.tvr)
    }

    fn denial_match(self) -> bool
        ensures { result ≡ denial_match (reading_of self.entry.start.now) (told_in self.entry.told.now) self.entry.tvr }
    {
        self.code_match(0x9F0E, 0x00, Field::Denial)
    }

    fn online_match(self) -> bool
        ensures { result ≡ online_match (reading_of self.entry.start.now) (told_in self.entry.told.now) self.entry.tvr }
    {
        self.code_match(0x9F0F, 0xFF, Field::Online)
    }

    fn default_match(self) -> bool
        ensures { result ≡ default_match (reading_of self.entry.start.now) (told_in self.entry.told.now) self.entry.tvr }
    {
        self.code_match(0x9F0D, 0xFF, Field::Default)
    }
}

// The first request by the terminal's type, where no code denies.
#[tactic(auto, unfolding(crate::specs::Requests::by_type, slices::specs::Choice::pick))]
fn by_type(kind: u8, default: bool, online: bool) -> Cryptogram
    ensures { result ≡ by_type kind default online }
{
    match kind {
        0 => {
            if default {
                Cryptogram::Aac
            } else {
                Cryptogram::Tc
            }
        }
        1 => Cryptogram::Arqc,
        2 => {
            if online {
                Cryptogram::Arqc
            } else {
                Cryptogram::Tc
            }
        }
        _ => Cryptogram::Tc,
    }
}

#[tactic(auto, unfolding(crate::specs::Requests::first_request, slices::specs::Choice::pick))]
pub fn first_request(start: &[u8], told: &[u8], tvr: [u8; 5]) -> Cryptogram
    ensures { result ≡ first_request (reading_of start.now) (told_in told.now) tvr }
{
    let codes = Codes { start, told, tvr };
    if codes.denial_match() {
        return Cryptogram::Aac;
    }
    let default = codes.default_match();
    let online = codes.online_match();
    by_type(fields::kind(start), default, online)
}

#[tactic(auto, unfolding(crate::specs::Requests::when_unable, slices::specs::Choice::pick))]
fn when_unable(kind: u8, default: bool) -> Cryptogram
    ensures { result ≡ when_unable kind default }
{
    if kind == 1 {
        return Cryptogram::Aac;
    }
    if default {
        Cryptogram::Aac
    } else {
        Cryptogram::Tc
    }
}

#[tactic(auto, unfolding(crate::specs::Requests::second_request))]
pub fn second_request(reply: HostReply, start: &[u8], told: &[u8], tvr: [u8; 5]) -> Cryptogram
    ensures { result ≡ second_request reply (reading_of start.now) (told_in told.now) tvr }
{
    match reply {
        HostReply::Approve => Cryptogram::Tc,
        HostReply::Decline => Cryptogram::Aac,
        HostReply::Unable => {
            let default = Codes { start, told, tvr }.default_match();
            when_unable(fields::kind(start), default)
        }
    }
}
