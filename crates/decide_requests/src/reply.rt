// The issuer's reply HOST, and the response code.
ghost use Rattle.std.specs.Prelude.{◌≡◌};
ghost use Rattle.decimal_dates.specs.Decimal.{zeros_only};
ghost use Rattle.decide_requests.specs.Replies.{code_in, reply_of, is_reply, response_code};

use decide_cryptogram::Cryptogram;

#[derive(Clone, Copy)]
pub enum HostReply {
    Approve,
    Decline,
    Unable,
}

fn zero_code(s: &[u8]) -> bool
    ensures { result ≡ zeros_only (code_in s.now) }
{
    slices::byte(s, 1) == 0 && slices::byte(s, 2) == 0
}

// What three bytes say: a reply, or nothing that is one.
#[tactic(auto, unfolding(crate::specs::Replies::reply_of, crate::specs::Replies::said_by, slices::specs::Choice::pick))]
pub fn reply_of(s: &[u8]) -> Option<HostReply>
    ensures { result ≡ reply_of s.now }
{
    if s.len() != 3 {
        return None;
    }
    match slices::byte(s, 0) {
        1 => Some(HostReply::Approve),
        2 => Some(HostReply::Decline),
        3 => {
            if zero_code(s) {
                Some(HostReply::Unable)
            } else {
                None
            }
        }
        _ => None,
    }
}

pub fn is_reply(s: &[u8]) -> bool
    ensures { result ≡ is_reply (reply_of s.now) }
{
    reply_of(s).is_some()
}

// The response code that came with a reply.
#[tactic(auto, unfolding(crate::specs::Replies::code_in))]
pub fn code_in(s: &[u8]) -> [u8; 2]
    ensures { result ≡ code_in s.now }
{
    [slices::byte(s, 1) as u8, slices::byte(s, 2) as u8]
}

// The response code beside the second request.
#[tactic(auto, unfolding(crate::specs::Replies::response_code))]
pub fn response_code(reply: HostReply, asked: Cryptogram, code: [u8; 2]) -> [u8; 2]
    ensures { result ≡ response_code reply asked code }
{
    match reply {
        HostReply::Approve => code,
        HostReply::Decline => code,
        HostReply::Unable => match asked {
            Cryptogram::Tc => [0x59, 0x33],
            Cryptogram::Aac => [0x5A, 0x33],
            Cryptogram::Arqc => [0x5A, 0x33],
        },
    }
}
