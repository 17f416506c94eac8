// A session that is terminated.
ghost use Rattle.std.specs.Prelude.{◌≡◌, ◌∷◌, ◌++◌, ◌%◌};
ghost use Rattle.numbers.specs.Tables.{terminated};
ghost use Rattle.quick_meet.specs.Meeting.{decision_met};

use crate::standing::Place;
use numbers::TERMINATED;
use quick_meet::meet::decided;
use verdict::Finding;

// For a reason: 01 has ten, and of a larger number the low byte is kept.
pub fn end(tape: &[u8], at: Place, reason: usize, tvr: [u8; 5], tsi: [u8; 2]) -> Finding
    ensures { result ≡ decision_met (terminated ∷ reason % 256 ∷ (tvr ++ tsi)) at.k at.zeros tape.now }
{
    let low = (reason % 256) as u8;
    decided(tape, at.k, TERMINATED, low, tvr, tsi, at.zeros)
}
