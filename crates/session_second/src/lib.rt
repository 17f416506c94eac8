// After the first cryptogram: approved, declined, or the issuer is asked and then the card again.
#![tactic(auto)]

ghost use Rattle.std.specs.Prelude.{◌≡◌};
ghost use Rattle.decide_requests.specs.Requests.{second_request};
ghost use Rattle.start_fields.specs.Reading.{reading_of};
ghost use Rattle.rulebook.specs.Turn.{replied, online as online_turn, by_first};
ghost use Rattle.session_state.specs.Reading.{start_in, late};
ghost use Rattle.session_moves.specs.Moves.{played, moved};

use decide_cryptogram::Cryptogram;
use decide_requests::reply::{HostReply, response_code};
use decide_requests::requests::second_request;
use dol_wanted::is_fillable;
use numbers::{APPROVED, DECLINED, FOR_LIST};
use session_moves::Step;
use session_moves::command::{generate, missing};
use session_moves::ends::{ask, decide, end, hear};
use session_moves::known::at_second;
use session_phase::Question;
use session_records::records::bytes_of;
use session_records::slots::value;
use session_state::State;
use slices::part;
use start_fields::fields;
use words::Word;

fn second(s: State, reply: HostReply) -> Cryptogram
    ensures { result ≡ second_request reply (reading_of (start_in s)) (late s).facts s.tvr }
{
    let told = bytes_of(s.told);
    second_request(reply, part(&s.start, 0, s.size), &told, s.tvr)
}

// The second request, once the issuer's reply is in.
pub fn request_second(s: State, reply: HostReply, code: [u8; 2], buf: &mut [u8]) -> Step
    ensures { played result buf.new ≡ moved (replied (late s) reply code) s buf.old }
{
    let told = bytes_of(s.told);
    let list = value(&told, 0x8D);
    if is_fillable(list) {
        let request = second(s, reply);
        let response = response_code(reply, request, code);
        let known = at_second(s, response);
        let n = generate(s, request, list, &known, buf);
        let zeros = missing(s, list, &known);
        ask(s, Question::Second(request), n, zeros)
    } else {
        end(s, FOR_LIST)
    }
}

// A terminal of type 0 goes on as unable.
fn go_online(s: State, buf: &mut [u8]) -> Step
    ensures { played result buf.new ≡ moved (online_turn (late s)) s buf.old }
{
    if fields::kind(part(&s.start, 0, s.size)) == 0 {
        request_second(s, HostReply::Unable, [0, 0], buf)
    } else {
        hear(s, Word::Host, 0)
    }
}

#[tactic(auto, using(crate::proofs::Ends::decisions), unfolding(rulebook::specs::Turn::by_first, rulebook::specs::Phase::decided))]
pub fn by_first(given: Option<Cryptogram>, s: State, buf: &mut [u8]) -> Step
    ensures { played result buf.new ≡ moved (by_first given (late s)) s buf.old }
{
    match given {
        Some(Cryptogram::Tc) => decide(s, APPROVED),
        Some(Cryptogram::Arqc) => go_online(s, buf),
        Some(Cryptogram::Aac) | None => decide(s, DECLINED),
    }
}
