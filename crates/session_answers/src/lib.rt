// How a session goes on after each answer of the card's.
#![tactic(auto)]

ghost use Rattle.std.specs.Prelude.{◌≡◌, [], ◌≤◌, take};
ghost use Rattle.answer_common.specs.Content.{record_names, name_count, names_for};
ghost use Rattle.rulebook.specs.Phase.{selecting, optioning, reading as reading_record, first as first_asked, second as second_asked};
ghost use Rattle.rulebook.specs.Turn.{by_second, turn};
ghost use Rattle.session_state.specs.Reading.{early, late, records_left};
ghost use Rattle.session_moves.specs.Moves.{played, moved};
ghost use Rattle.session_answers.specs.Keeping.{keeping, answered_state};

use answer_common::content::{NAMES, names_for};
use answer_cryptogram as cryptogram;
use answer_gpo::options_reason;
use decide_cryptogram::{Cryptogram, Request};
use decide_tvr::results::tsi_after_first_answer;
use numbers::{APPROVED, DECLINED};
use session_moves::Step;
use session_moves::ends::{decide, end};
use session_moves::options::options_due;
use session_records::Store;
use session_records::records::bytes_of;
use session_records_read::read_on;
use session_second::by_first;
use session_state::State;
use session_state::change::{change, with_options, with_told};
use slices::part;

pub fn on_select(s: State, a: &[u8], buf: &mut [u8]) -> Step
    ensures { played result buf.new
        ≡ moved (turn (selecting (early s)) a.now) (keeping (selecting (early s)) a.now s) buf.old }
{
    let terminal = part(&s.start, 0, s.size);
    let why = answer_select::select_reason(terminal, a);
    if why != 0 {
        return end(s, why);
    }
    options_due(s, answer_select::pdol(a), buf)
}

pub fn on_options(s: State, a: &[u8], buf: &mut [u8]) -> Step
    ensures { played result buf.new
        ≡ moved (turn (optioning (early s) []) a.now) (keeping (optioning (early s) []) a.now s)
        buf.old }
{
    let why = options_reason(a);
    if why != 0 {
        return end(s, why);
    }
    read_on(with_options(s, a), buf)
}

// How many of the names count in records.
fn names_of(s: State) -> usize
    ensures { (take result record_names ≡ names_for (late s).terminal) × (result ≤ name_count) }
{
    names_for(part(&s.start, 0, s.size))
}

pub fn on_record(s: State, a: &[u8], buf: &mut [u8]) -> Step
    ensures { played result buf.new
        ≡ moved (turn (reading_record (late s) 0 0 (records_left s)) a.now)
        (keeping (reading_record (late s) 0 0 (records_left s)) a.now s) buf.old }
{
    let names = NAMES;
    let n = names_of(s);
    let mut told = bytes_of(s.told);
    let why = answer_record::take(&mut told, &names[..n], a);
    if why != 0 {
        return end(s, why);
    }
    read_on(with_told(s, Store { bytes: told }), buf)
}

#[tactic(auto, unfolding(crate::specs::Keeping::answered_state))]
fn after_first(s: State) -> State
    ensures { result ≡ answered_state s }
{
    change(s, s.waiting, s.tvr, tsi_after_first_answer(s.tsi), s.cursor)
}

pub fn on_first(s: State, request: Cryptogram, a: &[u8], buf: &mut [u8]) -> Step
    ensures { played result buf.new ≡ moved (turn (first_asked (late s) request) a.now) s buf.old }
{
    let answered = after_first(s);
    let reason = cryptogram::cryptogram_reason(Request::First(request), a);
    if reason != 0 {
        return end(s, reason);
    }
    by_first(cryptogram::cryptogram(a), answered, buf)
}

#[tactic(auto, unfolding(rulebook::specs::Turn::by_second))]
fn by_second(given: Option<Cryptogram>) -> u8
    ensures { result ≡ by_second given }
{
    match given {
        Some(Cryptogram::Tc) => APPROVED,
        _ => DECLINED,
    }
}

pub fn on_second(s: State, request: Cryptogram, a: &[u8], buf: &mut [u8]) -> Step
    ensures { played result buf.new ≡ moved (turn (second_asked (late s) request []) a.now) s buf.old }
{
    let why = cryptogram::cryptogram_reason(Request::Second(request), a);
    if why != 0 {
        return end(s, why);
    }
    decide(s, by_second(cryptogram::cryptogram(a)))
}
