// The records, in the order of the AFL.
ghost use Rattle.std.specs.Prelude.{◌≡◌};
ghost use Rattle.slices.specs.Writing.{zeros as zero_bytes};
ghost use Rattle.session_records.specs.Slots.{end as slots_end};
ghost use Rattle.answer_afl.specs.Entries.{to_read};
ghost use Rattle.answer_afl.specs.Cursor.{record_at};
ghost use Rattle.commands.specs.Commands.{record_command};
ghost use Rattle.rulebook.specs.Turn.{read_on};
ghost use Rattle.quick_said.specs.Said.{found_from};
ghost use Rattle.quick_meet.specs.Meeting.{exchange_met};
ghost use Rattle.quick_ask.specs.Standing.{situation_in};

use crate::ending::end;
use crate::requests::all_read;
use crate::standing::Place;
use answer_afl::cursor;
use answer_afl::cursor::Cursor;
use answer_common::content::{NAMES, names_for};
use quick_ask::ask;
use quick_meet::meet::{payload_at, stop};
use session_records::END;
use verdict::{Finding, Ruling};

// READ RECORD of the record at the cursor.
fn read(tape: &[u8], k: usize, afl: &[u8], c: Cursor) -> Result<(), Ruling>
    ensures { result
        ≡ exchange_met (record_command (record_at afl.now c).0 (record_at afl.now c).1) k tape.now }
{
    let number = cursor::record(afl, c);
    let file = cursor::file(afl, c);
    ask::record(tape, k, number as u8, file as u8)
}

// From the first record on.
pub fn read_all(tape: &[u8], start: &[u8], profile: [u8; 2], afl: &[u8], zeros: usize) -> Finding
    ensures { result
        ≡ found_from (read_on (situation_in start.now (zero_bytes slots_end) profile (zero_bytes 5) (zero_bytes 2))
        (to_read afl.now)) 5 zeros tape.now }
{
    let names = NAMES;
    let n = names_for(start);
    let mut told = [0; END];
    let mut k = 5;
    let mut c = cursor::start();
    while cursor::is_left(afl, c) {
        if let Err(ruling) = read(tape, k, afl, c) {
            return stop(ruling, zeros);
        }
        let why = answer_record::take(&mut told, &names[..n], payload_at(tape, k + 1));
        if why != 0 {
            return end(tape, Place { k: k + 2, zeros }, why, [0; 5], [0; 2]);
        }
        let next = cursor::step(afl, c);
        c = next;
        k += 2;
    }
    all_read(tape, Place { k, zeros }, start, &told, profile)
}
