// The dialogue of a tape, followed in the order of a session: each function says what is found of the tape from a block on, where the
// entries before it have led to what is due there. Nothing is kept but what the records told.
#![tactic(auto)]

mod ending;
mod online;
mod options;
mod records;
mod requests;
mod standing;

ghost use Rattle.std.specs.Prelude.{◌≡◌};
ghost use Rattle.rulebook.specs.Phase.{opens};
ghost use Rattle.quick_said.specs.Said.{found_from};

use numbers::START;
use options::from_start;
use quick_meet::meet::{fail, payload_at, stop, word};
use start_valid::valid_start;
use verdict::Finding;

// What is found of the entries of any tape, whatever makes it unreadable.
pub fn follow(tape: &[u8]) -> Finding
    ensures { result ≡ found_from opens 0 0 tape.now }
{
    if let Err(ruling) = word(tape, 0, START) {
        return stop(ruling, 0);
    }
    let start = payload_at(tape, 0);
    if !valid_start(start) {
        return fail(0, 0);
    }
    from_start(tape, start)
}
