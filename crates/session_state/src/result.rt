// What can be read off a state.
ghost use Rattle.std.specs.Prelude.{◌≡◌, length};
ghost use Rattle.session_phase.specs.Waiting.{outcome_of, reason_of};
ghost use Rattle.session_state.specs.Results.{decision_in};

use crate::State;

pub fn tvr(s: State) -> [u8; 5]
    ensures { (result ≡ s.tvr) × (length s.tvr ≡ 5) }
{
    s.tvr
}

pub fn tsi(s: State) -> [u8; 2]
    ensures { (result ≡ s.tsi) × (length s.tsi ≡ 2) }
{
    s.tsi
}

// 1 approved, 2 declined, 3 terminated; 0 while there is no decision.
pub fn outcome(s: State) -> u8
    ensures { result ≡ outcome_of s.waiting }
{
    session_phase::outcome(s.waiting)
}

// Why the session was terminated; 0 where it was not.
pub fn reason(s: State) -> u8
    ensures { result ≡ reason_of s.waiting }
{
    session_phase::reason(s.waiting)
}

// The nine bytes of DECISION; the first is 0 while there is no decision.
pub fn decision(s: State) -> [u8; 9]
    ensures { result ≡ decision_in s }
{
    let bits = tvr(s);
    let status = tsi(s);
    [
        outcome(s),
        reason(s),
        bits[0],
        bits[1],
        bits[2],
        bits[3],
        bits[4],
        status[0],
        status[1],
    ]
}
