// From record to record, and after the last of them.
#![tactic(auto)]

ghost use Rattle.std.specs.Prelude.{◌≡◌, Some, None};
ghost use Rattle.slices.specs.Choice.{pick};
ghost use Rattle.answer_afl.specs.Cursor.{is_left, stepped};
ghost use Rattle.rulebook.specs.Turn.{all_read, read_on};
ghost use Rattle.session_state.specs.Reading.{late, records_left};
ghost use Rattle.session_records.specs.Runs.{in_run};
ghost use Rattle.session_moves.specs.Moves.{played, moved};
ghost use Rattle.session_records_read.specs.Storing.{managed_state};

use answer_afl::cursor;
use answer_afl::cursor::Cursor;
use decide_tvr::results::{tsi_after_records, tvr_after_records};
use numbers::FOR_MISSING;
use session_first::{reason, verify};
use session_moves::Step;
use session_moves::command::read;
use session_moves::ends::end;
use session_phase::{Question, Reply, Waiting};
use session_records::records;
use session_records::runs::{bytes_of, size_of};
use session_state::State;
use session_state::change::change;
use slices::part;

// Where the record behind the next one stands; None where no record is left.
fn next(s: State) -> Option<Cursor>
    ensures { result ≡ pick (is_left (in_run s.locator) s.cursor) (Some (stepped (in_run s.locator) s.cursor)) None }
{
    let n = size_of(s.locator);
    let bytes = bytes_of(s.locator);
    let afl = &bytes[..n];
    if cursor::is_left(afl, s.cursor) {
        Some(cursor::step(afl, s.cursor))
    } else {
        None
    }
}

// The bits that the facts set.
fn managed(s: State) -> State
    ensures { result ≡ managed_state s }
{
    let told = records::bytes_of(s.told);
    change(
        s,
        s.waiting,
        tvr_after_records(part(&s.start, 0, s.size), s.profile, &told, s.tvr),
        tsi_after_records(s.profile, s.tsi),
        s.cursor,
    )
}

// After the last record.
fn all_read(s: State, buf: &mut [u8]) -> Step
    ensures { played result buf.new ≡ moved (all_read (late s)) s buf.old }
{
    let why = reason(s);
    if why == FOR_MISSING {
        return end(s, FOR_MISSING);
    }
    verify(managed(s), buf)
}

// The next record, or the end of them.
pub fn read_on(s: State, buf: &mut [u8]) -> Step
    ensures { played result buf.new ≡ moved (read_on (late s) (records_left s)) s buf.old }
{
    match next(s) {
        Some(place) => {
            let n = read(s, buf);
            Step {
                state: change(s, Waiting::ForCard(Question::Record), s.tvr, s.tsi, place),
                reply: Reply::Command(n),
                zeros: 0,
            }
        }
        None => all_read(s, buf),
    }
}
