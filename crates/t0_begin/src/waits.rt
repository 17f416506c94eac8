// What is waited for.
ghost use Rattle.std.specs.Prelude.{◌≡◌};
ghost use Rattle.t0_begin.specs.Begin.{wait_for};

use std::fmt;
use t0_state::Phase;

// A procedure byte, the length behind '61' or '6C', the second byte of a status, so many bytes of data.
#[derive(Clone, Copy)]
pub enum Wait {
    Procedure,
    Length,
    Sw2,
    Data(usize),
}

// What is waited for in a phase; where the exchange is over, no byte.
impl From<Phase> for Wait {
    ghost from_gives = { λ phase wait. wait ≡ wait_for phase };

    #[tactic(auto, unfolding(crate::specs::Begin::wait_for))]
    fn from(phase: Phase) -> Wait {
        match phase {
            Phase::Procedure => Wait::Procedure,
            Phase::Length61 | Phase::Length6C => Wait::Length,
            Phase::Status(_) => Wait::Sw2,
            Phase::Data(n) => Wait::Data(n),
            Phase::Over => Wait::Data(0),
        }
    }
}

impl fmt::Display for Wait {
    fn fmt<W: fmt::Write>(&self, f: &mut fmt::Formatter<W>) -> fmt::Result {
        match self {
            Wait::Procedure => f.write_str("procedure"),
            Wait::Length => f.write_str("length"),
            Wait::Sw2 => f.write_str("sw2"),
            Wait::Data(n) => write!(f, "data {n}"),
        }
    }
}
