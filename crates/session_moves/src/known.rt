// The slots that an object list is filled from: what the records told, beside what the session itself has come to.
ghost use Rattle.std.specs.Prelude.{◌≡◌, length};
ghost use Rattle.std.proofs.Math.Option.{none, some};
ghost use Rattle.session_records.specs.Slots.{told_in};
ghost use Rattle.rulebook.specs.Situation.{known_in};
ghost use Rattle.session_state.specs.Reading.{early, late};
ghost use Rattle.session_moves.specs.Known.{known_early, known_late, known_second};

use session_records::END;
use session_records::records::bytes_of;
use session_records::slots::keep;
use session_state::{State, result};
use slices::lay;

fn profile_of(s: State) -> [u8; 2]
    ensures { (result ≡ s.profile) × (length s.profile ≡ 2) }
{
    s.profile
}

// Before the answer to GPO: TVR and TSI.
pub fn at_options(s: State) -> [u8; END]
    ensures slots { result ≡ known_early s }
    ensures known { told_in result ≡ known_in (early s) none }
{
    let store = s.told;
    let told = bytes_of(store);
    let tvr = result::tvr(s);
    let tsi = result::tsi(s);
    let mut known = [0; END];
    lay(&mut known, 15, &told[15..]);
    keep(&mut known, 0x95, &tvr);
    keep(&mut known, 0x9B, &tsi);
    known
}

// At the first request: the profile too.
pub fn at_first(s: State) -> [u8; END]
    ensures slots { result ≡ known_late s }
    ensures known { told_in result ≡ known_in (late s) none }
{
    let profile = profile_of(s);
    let mut known = at_options(s);
    keep(&mut known, 0x82, &profile);
    known
}

// At the second, with the response code.
pub fn at_second(s: State, response: [u8; 2]) -> [u8; END]
    ensures slots { result ≡ known_second response s }
    ensures known { told_in result ≡ known_in (late s) (some response) }
{
    let mut known = at_first(s);
    keep(&mut known, 0x8A, &response);
    known
}
