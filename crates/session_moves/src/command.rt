// The commands that are filled from a list, and that of the next record.
ghost use Rattle.std.specs.Prelude.{◌≡◌, length};
ghost use Rattle.slices.specs.Writing.{laid};
ghost use Rattle.start_fields.specs.Reading.{reading_of};
ghost use Rattle.dol_fill.specs.Filled.{filling, unsupplied as unsupplied_of};
ghost use Rattle.decide_cryptogram.specs.Cryptograms.{p1_of};
ghost use Rattle.answer_afl.specs.Cursor.{record_at};
ghost use Rattle.commands.specs.Commands.{record_command, cryptogram_command, size_in};
ghost use Rattle.session_records.specs.Runs.{in_run};
ghost use Rattle.session_records.specs.Slots.{told_in};
ghost use Rattle.session_state.specs.Reading.{start_in};

use answer_afl::cursor;
use commands::write;
use decide_cryptogram::{Cryptogram, p1};
use dol_fill::Sources;
use dol_fill::count::unsupplied;
use session_records::runs::{bytes_of, size_of};
use session_state::State;
use slices::part;

// GENERATE AC, filled from an object list and the slots of what is known.
pub fn generate(s: State, request: Cryptogram, list: &[u8], known: &[u8], buf: &mut [u8]) -> usize
    ensures size { result
        ≡ size_in (length buf.old)
        (cryptogram_command (p1_of request) (filling (reading_of (start_in s)) (told_in known.now) list.now)) }
    ensures buffer { buf.new
        ≡ laid (cryptogram_command (p1_of request) (filling (reading_of (start_in s)) (told_in known.now) list.now)) 0
        buf.old }
{
    let start = s.start;
    let size = s.size;
    let from = Sources {
        start: part(&start, 0, size),
        known,
    };
    write::cryptogram(p1(request), list, from, buf)
}

// How many entries of an object list are not supplied.
pub fn missing(s: State, list: &[u8], known: &[u8]) -> usize
    ensures { result ≡ unsupplied_of (reading_of (start_in s)) (told_in known.now) list.now }
{
    let start = s.start;
    let size = s.size;
    let from = Sources {
        start: part(&start, 0, size),
        known,
    };
    unsupplied(list, from)
}

// READ RECORD of the record at the cursor.
pub fn read(s: State, buf: &mut [u8]) -> usize
    ensures size { result
        ≡ size_in (length buf.old)
        (record_command (record_at (in_run s.locator) s.cursor).0 (record_at (in_run s.locator) s.cursor).1) }
    ensures buffer { buf.new
        ≡ laid (record_command (record_at (in_run s.locator) s.cursor).0 (record_at (in_run s.locator) s.cursor).1) 0
        buf.old }
{
    let run = s.locator;
    let place = s.cursor;
    let n = size_of(run);
    let bytes = bytes_of(run);
    let number = cursor::record(&bytes[..n], place);
    let file = cursor::file(&bytes[..n], place);
    write::record(number as u8, file as u8, buf)
}
