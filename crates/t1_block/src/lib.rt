// Blocks of T=1 (000, I-5.2.4.1): what a received one says or what is wrong with it, and how one is written.
#![tactic(auto)]

mod faults;
mod kinds;
mod names;
mod writing;

ghost use Rattle.std.specs.Prelude.{◌≡◌};
ghost use Rattle.t1_block.specs.Blocks.{inf_of};

pub use faults::{hear, tested};
pub use kinds::{kind_of, pcb_of_i, pcb_of_r, pcb_of_s};
use slices::{byte, part};
pub use writing::{LONGEST, write};

// What an S-block asks for, or answers.
#[derive(Clone, Copy, PartialEq, Eq)]
pub enum What {
    Resynch,
    Ifs,
    Abort,
    Wtx,
}

// An I-block with its number and whether more follows, an R-block with its number, or an S-block.
#[derive(Clone, Copy)]
pub enum Kind {
    Information(bool, bool),
    Ready(bool),
    Request(What),
    Response(What),
}

// Too few or too many characters; LRC; LEN 'FF'; NAD; PCB; an I-block without a field or with too long a one; another field
// that is not as it must be.
#[derive(Clone, Copy)]
pub enum Fault {
    Under,
    Over,
    Edc,
    Len,
    Nad,
    Pcb,
    Empty,
    Size,
    Inf,
}

// The information field, as a part of the block itself.
#[tactic(auto, unfolding(crate::specs::Blocks::inf_of))]
pub fn information(block: &[u8]) -> &[u8]
    ensures { result.now ≡ inf_of block.now }
{
    part(block, 3, byte(block, 2))
}
