// The slots that an object list is filled from (01, "The commands"): what the records told, beside what the session itself has come to.
ghost use Rattle.std.specs.Prelude.{◌≡◌};
ghost use Rattle.quick_ask.specs.Known.{known_early, known_late, known_second};

use session_records::END;
use session_records::slots::keep;
use slices::{lay, part};

// Before the answer to GPO: TVR and TSI.
pub fn at_options(told: &[u8], tvr: [u8; 5], tsi: [u8; 2]) -> [u8; END]
    ensures { result ≡ known_early told.now tvr tsi }
{
    let mut known = [0; END];
    lay(&mut known, 15, part(told, 15, END - 15));
    keep(&mut known, 0x95, &tvr);
    keep(&mut known, 0x9B, &tsi);
    known
}

// At the first request: the profile too.
#[tactic(auto, unfolding(crate::specs::Known::known_late))]
pub fn at_first(told: &[u8], profile: [u8; 2], tvr: [u8; 5], tsi: [u8; 2]) -> [u8; END]
    ensures { result ≡ known_late told.now profile tvr tsi }
{
    let mut known = at_options(told, tvr, tsi);
    keep(&mut known, 0x82, &profile);
    known
}

// At the second, with the response code.
#[tactic(auto, unfolding(crate::specs::Known::known_second))]
pub fn at_second(
    told: &[u8],
    profile: [u8; 2],
    tvr: [u8; 5],
    tsi: [u8; 2],
    response: [u8; 2],
) -> [u8; END]
    ensures { result ≡ known_second response told.now profile tvr tsi }
{
    let mut known = at_first(told, profile, tvr, tsi);
    keep(&mut known, 0x8A, &response);
    known
}
