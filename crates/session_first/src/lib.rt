// After the last record and its bits: the results of cardholder verification where they are due, and the first request.
#![tactic(auto)]

ghost use Rattle.std.specs.Prelude.{◌≡◌, ◌<◌};
ghost use Rattle.answer_record.specs.Records.{after_records};
ghost use Rattle.words.specs.declared.Word.TheVariants.{Results};
ghost use Rattle.rulebook.specs.Phase.{says};
ghost use Rattle.rulebook.specs.Turn.{requested, verifying, after};
ghost use Rattle.session_state.specs.Reading.{late};
ghost use Rattle.session_records.specs.Slots.{told as told_by};
ghost use Rattle.session_moves.specs.Moves.{played, moved};
ghost use Rattle.session_first.specs.Storing.{verified_state};

use answer_record::complete_reason;
use decide_requests::requests::first_request;
use decide_verification::{is_due, tsi_after_results, tvr_after_results, wanted};
use session_moves::Step;
use session_moves::command::{generate, missing};
use session_moves::ends::{ask, end, hear};
use session_moves::known::at_first;
use session_phase::Question;
use session_records::records;
use session_records::slots::value;
use session_state::State;
use session_state::change::change;
use slices::part;
use words::Word;

// Reasons 8 and 9 over all that the records told.
pub fn reason(s: State) -> usize
    ensures { result ≡ after_records (told_by s.told) }
{
    let told = records::bytes_of(s.told);
    complete_reason(&told)
}

// The first request, or the end where its list cannot be filled.
fn request_first(s: State, why: usize, buf: &mut [u8]) -> Step
    requires { why < 256 }
    ensures { played result buf.new ≡ moved (requested why (late s)) s buf.old }
{
    if why != 0 {
        return end(s, why);
    }
    let told = records::bytes_of(s.told);
    let list = value(&told, 0x8C);
    let request = first_request(part(&s.start, 0, s.size), &told, s.tvr);
    let known = at_first(s);
    let n = generate(s, request, list, &known, buf);
    let zeros = missing(s, list, &known);
    ask(s, Question::First(request), n, zeros)
}

// The results, where they are due; else the first request.
pub fn verify(s: State, buf: &mut [u8]) -> Step
    ensures { played result buf.new ≡ moved (verifying (late s)) s buf.old }
{
    let told = records::bytes_of(s.told);
    if is_due(part(&s.start, 0, s.size), s.profile, &told) {
        return hear(s, Word::Results, wanted(&told));
    }
    request_first(s, reason(s), buf)
}

// The bits that the results set.
fn verified(s: State, results: &[u8]) -> State
    ensures { result ≡ verified_state results.now s }
{
    let told = records::bytes_of(s.told);
    change(
        s,
        s.waiting,
        tvr_after_results(part(&s.start, 0, s.size), &told, results, s.tvr),
        tsi_after_results(s.tsi),
        s.cursor,
    )
}

// After the results.
pub fn on_results(s: State, results: &[u8], buf: &mut [u8]) -> Step
    ensures { played result buf.new ≡ moved (after (says Results (late s)) results.now) s buf.old }
{
    request_first(verified(s, results), reason(s), buf)
}
