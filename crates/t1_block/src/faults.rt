// The tests of a received block, in their order.
ghost use Rattle.std.specs.Prelude.{◌≡◌, Ok, Err, eqb, leb};
ghost use Rattle.slices.specs.Choice.{pick};
ghost use Rattle.t1_block.specs.Blocks.{lrc_of};
ghost use Rattle.t1_block.specs.Faults.{size_of, sized, in_frame, tested, heard_of, code_of};

use crate::kinds::kind_of;
use crate::{Fault, Kind, What};
use slices::{byte, part};

// A valid block's kind, where the longest information field that we take is given.
#[tactic(auto, unfolding(crate::specs::Faults::tested, slices::specs::Choice::pick))]
pub fn tested(block: &[u8], most: u8) -> Result<Kind, Fault>
    ensures { result ≡ tested block.now most }
{
    let n = byte(block, 2);
    if block.len() < 4 + n {
        return Err(Fault::Under);
    }
    if 4 + n < block.len() {
        return Err(Fault::Over);
    }
    in_frame(block, most)
}

#[tactic(auto, unfolding(crate::specs::Faults::in_frame, crate::specs::Faults::of_kind, slices::specs::Choice::pick))]
fn in_frame(block: &[u8], most: u8) -> Result<Kind, Fault>
    ensures { result ≡ in_frame block.now most }
{
    let n = byte(block, 2);
    let x = lrc(part(block, 0, 3 + n)) as usize;
    if x != byte(block, 3 + n) {
        return Err(Fault::Edc);
    }
    if n == 0xFF {
        return Err(Fault::Len);
    }
    if byte(block, 0) != 0x00 {
        return Err(Fault::Nad);
    }
    let kind = kind_of(byte(block, 1) as u8).ok_or(Fault::Pcb)?;
    sized(kind, n as u8, most)
}

// The bytes joined by exclusive or.
#[tactic(auto, unfolding(crate::specs::Blocks::lrc_of, atr_characters::specs::Data::joined_from))]
pub fn lrc(s: &[u8]) -> u8
    ensures { result ≡ lrc_of s.now }
{
    let mut x: u8 = 0;
    for b in s {
        x ^= *b;
    }
    x
}

// The kind, where a field of so many bytes is one that it may have.
#[tactic(auto, unfolding(crate::specs::Faults::sized))]
fn sized(kind: Kind, n: u8, most: u8) -> Result<Kind, Fault>
    ensures { result ≡ sized kind n most }
{
    match kind {
        Kind::Information(_, _) => of_information(kind, n, most),
        Kind::Ready(_) => exactly(kind, n, 0),
        Kind::Request(w) | Kind::Response(w) => exactly(kind, n, size_of(w)),
    }
}

#[tactic(auto, unfolding(slices::specs::Choice::pick))]
fn of_information(kind: Kind, n: u8, most: u8) -> Result<Kind, Fault>
    ensures { result ≡ pick (eqb n 0) (Err Fault.Empty) (pick (leb n most) (Ok kind) (Err Fault.Size)) }
{
    if n == 0 {
        return Err(Fault::Empty);
    }
    if n <= most {
        Ok(kind)
    } else {
        Err(Fault::Size)
    }
}

#[tactic(auto, unfolding(slices::specs::Choice::pick))]
fn exactly(kind: Kind, n: u8, size: u8) -> Result<Kind, Fault>
    ensures { result ≡ pick (eqb n size) (Ok kind) (Err Fault.Inf) }
{
    if n == size { Ok(kind) } else { Err(Fault::Inf) }
}

// How many bytes the field of an S-block has.
fn size_of(w: What) -> u8
    ensures { result ≡ size_of w }
{
    match w {
        What::Ifs | What::Wtx => 1,
        What::Resynch | What::Abort => 0,
    }
}

impl Fault {
    // The error code that an R-block carries.
    pub fn code(self) -> u8
        ensures { result ≡ code_of self }
    {
        match self {
            Fault::Edc => 1,
            _ => 2,
        }
    }
}

// A received block: valid, or the code that an R-block is to carry.
#[tactic(auto, unfolding(crate::specs::Faults::heard_of, crate::specs::Faults::heard_as))]
pub fn hear(block: &[u8], most: u8) -> Result<Kind, u8>
    ensures { result ≡ heard_of block.now most }
{
    tested(block, most).map_err(|fault| fault.code())
}
