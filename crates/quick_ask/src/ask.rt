// The four commands, each written as it is due and met on a tape.
ghost use Rattle.std.specs.Prelude.{◌≡◌};
ghost use Rattle.start_fields.specs.Reading.{reading_of};
ghost use Rattle.session_records.specs.Slots.{told_in};
ghost use Rattle.dol_fill.specs.Filled.{filling};
ghost use Rattle.commands.specs.Commands.{select_command, options_command, record_command, cryptogram_command};
ghost use Rattle.decide_cryptogram.specs.Cryptograms.{p1_of};
ghost use Rattle.quick_meet.specs.Meeting.{exchange_met};

use commands::write;
use commands::write::LONGEST;
use decide_cryptogram::{Cryptogram, p1};
use dol_fill::Sources;
use quick_meet::meet::exchange;
use slices::part;
use verdict::Ruling;

pub fn select(tape: &[u8], k: usize, start: &[u8]) -> Result<(), Ruling>
    ensures { result ≡ exchange_met (select_command (reading_of start.now).aid) k tape.now }
{
    let mut buf = [0; LONGEST];
    let n = write::select(start, &mut buf);
    exchange(tape, k, part(&buf, 0, n))
}

// GET PROCESSING OPTIONS, filled from an object list and the slots of what is known.
pub fn options(tape: &[u8], k: usize, list: &[u8], from: Sources) -> Result<(), Ruling>
    ensures { result
        ≡ exchange_met (options_command (filling (reading_of from.entry.start.now) (told_in from.entry.known.now) list.now)) k
        tape.now }
{
    let mut buf = [0; LONGEST];
    let n = write::options(list, from, &mut buf);
    exchange(tape, k, part(&buf, 0, n))
}

// READ RECORD.
pub fn record(tape: &[u8], k: usize, number: u8, file: u8) -> Result<(), Ruling>
    ensures { result ≡ exchange_met (record_command number file) k tape.now }
{
    let mut buf = [0; 5];
    let n = write::record(number, file, &mut buf);
    exchange(tape, k, part(&buf, 0, n))
}

// GENERATE AC, filled from an object list and the slots of what is known.
pub fn cryptogram(
    tape: &[u8],
    k: usize,
    request: Cryptogram,
    list: &[u8],
    from: Sources,
) -> Result<(), Ruling>
    ensures { result
        ≡ exchange_met (cryptogram_command (p1_of request)
        (filling (reading_of from.entry.start.now) (told_in from.entry.known.now) list.now)) k tape.now }
{
    let mut buf = [0; LONGEST];
    let n = write::cryptogram(p1(request), list, from, &mut buf);
    exchange(tape, k, part(&buf, 0, n))
}
