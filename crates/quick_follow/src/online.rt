// From the first cryptogram on: decided, or the issuer is asked and then the card again.
ghost use Rattle.std.specs.Prelude.{◌≡◌};
ghost use Rattle.rulebook.specs.Situation.{Situation};
ghost use Rattle.rulebook.specs.Phase.{hears, says};
ghost use Rattle.rulebook.specs.Turn.{reply_made, replied, by_second, second_answered, first_answered, by_first, online as online_turn};
ghost use Rattle.decide_requests.specs.Replies.{reply_of};
ghost use Rattle.words.specs.declared.Word.TheVariants.{Host};
ghost use Rattle.quick_said.specs.Said.{found_from};
ghost use Rattle.quick_follow.specs.Standing.{situation_of};

use crate::ending::end;
use crate::standing::{Place, Standing};
use answer_cryptogram as cryptogram;
use decide_cryptogram::{Cryptogram, Request};
use decide_requests::reply::{HostReply, code_in, reply_of, response_code};
use decide_requests::requests::second_request;
use decide_tvr::results::tsi_after_first_answer;
use dol_fill::Sources;
use dol_fill::count::{sum, unsupplied};
use dol_wanted::is_fillable;
use numbers::{APPROVED, DECLINED, FOR_LIST, HOST};
use quick_ask::ask;
use quick_ask::known::at_second;
use quick_meet::meet::{decided, fail, payload_at, stop, word};
use session_records::slots::value;
use start_fields::fields;
use verdict::Finding;
use words::{Word, is_allowed};

#[tactic(auto, unfolding(rulebook::specs::Turn::by_second))]
fn by_second(given: Option<Cryptogram>) -> u8
    ensures { result ≡ by_second given }
{
    match given {
        Some(Cryptogram::Tc) => APPROVED,
        Some(Cryptogram::Aac) => DECLINED,
        Some(Cryptogram::Arqc) => DECLINED,
        None => DECLINED,
    }
}

// After the second answer.
fn from_second(
    tape: &[u8],
    at: Place,
    request: Cryptogram,
    a: &[u8],
    tvr: [u8; 5],
    tsi: [u8; 2],
) -> Finding
    ensures { (s : Situation) → s.tvr ≡ tvr → s.tsi ≡ tsi
        → result ≡ found_from (second_answered s request a.now) at.k at.zeros tape.now }
{
    let why = cryptogram::cryptogram_reason(Request::Second(request), a);
    if why != 0 {
        return end(tape, at, why, tvr, tsi);
    }
    let outcome = by_second(cryptogram::cryptogram_read(a));
    decided(tape, at.k, outcome, 0, tvr, tsi, at.zeros)
}

// The second request, once the issuer's reply is in.
fn second(tape: &[u8], at: Place, s: Standing, reply: HostReply, code: [u8; 2]) -> Finding
    ensures { result ≡ found_from (replied (situation_of s.entry) reply code) at.k at.zeros tape.now }
{
    let told = s.told;
    let list = value(told, 0x8D);
    if !is_fillable(list) {
        return end(tape, at, FOR_LIST, s.tvr, s.tsi);
    }
    let request = second_request(reply, s.start, told, s.tvr);
    let response = response_code(reply, request, code);
    let known = at_second(told, s.profile, s.tvr, s.tsi, response);
    let from = Sources {
        start: s.start,
        known: &known,
    };
    let zeros = sum(at.zeros, unsupplied(list, from));
    if let Err(ruling) = ask::cryptogram(tape, at.k, request, list, from) {
        return stop(ruling, zeros);
    }
    let a = payload_at(tape, at.k + 1);
    let next = Place { k: at.k + 2, zeros };
    from_second(tape, next, request, a, s.tvr, s.tsi)
}

// The issuer's reply; what is none counts as unable.
fn reply_made(h: &[u8]) -> HostReply
    ensures { result ≡ reply_made (reply_of h.now) }
{
    reply_of(h).unwrap_or(HostReply::Unable)
}

// Where the issuer's reply is due.
fn host(tape: &[u8], at: Place, s: Standing) -> Finding
    ensures { result ≡ found_from (hears (says Host (situation_of s.entry))) at.k at.zeros tape.now }
{
    if let Err(ruling) = word(tape, at.k, HOST) {
        return stop(ruling, at.zeros);
    }
    let p = payload_at(tape, at.k);
    if !is_allowed(Word::Host, 0, p) {
        return fail(at.k, at.zeros);
    }
    let next = Place {
        k: at.k + 1,
        zeros: at.zeros,
    };
    second(tape, next, s, reply_made(p), code_in(p))
}

// A terminal of type 0 goes on as unable.
fn online(tape: &[u8], at: Place, s: Standing) -> Finding
    ensures { result ≡ found_from (online_turn (situation_of s.entry)) at.k at.zeros tape.now }
{
    if fields::kind(s.start) == 0 {
        return second(tape, at, s, HostReply::Unable, [0, 0]);
    }
    host(tape, at, s)
}

fn by_first(tape: &[u8], at: Place, given: Option<Cryptogram>, s: Standing) -> Finding
    ensures { result ≡ found_from (by_first given (situation_of s.entry)) at.k at.zeros tape.now }
{
    match given {
        Some(cryptogram) => match cryptogram {
            Cryptogram::Tc => decided(tape, at.k, APPROVED, 0, s.tvr, s.tsi, at.zeros),
            Cryptogram::Aac => decided(tape, at.k, DECLINED, 0, s.tvr, s.tsi, at.zeros),
            Cryptogram::Arqc => online(tape, at, s),
        },
        None => decided(tape, at.k, DECLINED, 0, s.tvr, s.tsi, at.zeros),
    }
}

// After the first answer.
pub fn from_first(tape: &[u8], at: Place, request: Cryptogram, a: &[u8], s: Standing) -> Finding
    ensures { result ≡ found_from (first_answered (situation_of s.entry) request a.now) at.k at.zeros tape.now }
{
    let why = cryptogram::cryptogram_reason(Request::First(request), a);
    if why != 0 {
        return end(tape, at, why, s.tvr, s.tsi);
    }
    let tsi = tsi_after_first_answer(s.tsi);
    by_first(
        tape,
        at,
        cryptogram::cryptogram_read(a),
        Standing { tsi, ..s },
    )
}
