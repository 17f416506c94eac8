// SELECT and GET PROCESSING OPTIONS.
ghost use Rattle.std.specs.Prelude.{◌≡◌};
ghost use Rattle.start_fields.specs.Reading.{reading_of};
ghost use Rattle.rulebook.specs.Situation.{begun};
ghost use Rattle.rulebook.specs.Turn.{opened, selected, optioned};
ghost use Rattle.quick_said.specs.Said.{found_from};

use crate::ending::end;
use crate::records::read_all;
use crate::standing::Place;
use answer_gpo::{locator_read, options_reason, profile_read};
use answer_select::{pdol_read, select_reason};
use dol_fill::Sources;
use dol_fill::count::{sum, unsupplied};
use quick_ask::ask;
use quick_ask::known::at_options;
use quick_meet::meet::{payload_at, stop};
use session_records::END;
use slices::lay;
use verdict::Finding;

// After the answer to GPO.
fn from_options(tape: &[u8], start: &[u8], a: &[u8], zeros: usize) -> Finding
    ensures { result ≡ found_from (optioned (begun (reading_of start.now)) a.now) 5 zeros tape.now }
{
    let why = options_reason(a);
    if why != 0 {
        return end(tape, Place { k: 5, zeros }, why, [0; 5], [0; 2]);
    }
    let mut aip = [0; 2];
    lay(&mut aip, 0, profile_read(a));
    read_all(tape, start, aip, locator_read(a), zeros)
}

// After the answer to SELECT.
fn from_select(tape: &[u8], start: &[u8], a: &[u8]) -> Finding
    ensures { result ≡ found_from (selected (begun (reading_of start.now)) a.now) 3 0 tape.now }
{
    let why = select_reason(start, a);
    if why != 0 {
        return end(tape, Place { k: 3, zeros: 0 }, why, [0; 5], [0; 2]);
    }
    let told = [0; END];
    let known = at_options(&told, [0; 5], [0; 2]);
    let list = pdol_read(a);
    let from = Sources {
        start,
        known: &known,
    };
    let zeros = sum(0, unsupplied(list, from));
    if let Err(ruling) = ask::options(tape, 3, list, from) {
        return stop(ruling, zeros);
    }
    from_options(tape, start, payload_at(tape, 4), zeros)
}

// After START.
pub fn from_start(tape: &[u8], start: &[u8]) -> Finding
    ensures { result ≡ found_from (opened (reading_of start.now)) 1 0 tape.now }
{
    if let Err(ruling) = ask::select(tape, 1, start) {
        return stop(ruling, 0);
    }
    from_select(tape, start, payload_at(tape, 2))
}
