// Protocol control bytes.
ghost use Rattle.std.specs.Prelude.{◌≡◌, ◌≤◌, ◌<◌};
ghost use Rattle.t1_block.specs.Blocks.{kind_of, bit_of, pcb_of_i, pcb_of_r, what_number, pcb_of_s};

use crate::{Kind, What};

// What a control byte says, where it says anything.
#[tactic(auto, unfolding(crate::specs::Blocks::kind_of, slices::specs::Tables::beside, slices::specs::Choice::pick))]
pub fn kind_of(pcb: u8) -> Option<Kind>
    ensures { result ≡ kind_of pcb }
{
    match pcb {
        0x80..=0x8F => Some(Kind::Ready(false)),
        0x90..=0x9F => Some(Kind::Ready(true)),
        0x00 => Some(Kind::Information(false, false)),
        0x20 => Some(Kind::Information(false, true)),
        0x40 => Some(Kind::Information(true, false)),
        0x60 => Some(Kind::Information(true, true)),
        0xC0 => Some(Kind::Request(What::Resynch)),
        0xC1 => Some(Kind::Request(What::Ifs)),
        0xC2 => Some(Kind::Request(What::Abort)),
        0xC3 => Some(Kind::Request(What::Wtx)),
        0xE0 => Some(Kind::Response(What::Resynch)),
        0xE1 => Some(Kind::Response(What::Ifs)),
        0xE2 => Some(Kind::Response(What::Abort)),
        0xE3 => Some(Kind::Response(What::Wtx)),
        _ => None,
    }
}

fn bit_of(b: bool, n: u8) -> u8
    ensures { (result ≡ bit_of b n) × (result ≤ n) }
{
    if b { n } else { 0 }
}

// An I-block. Three functions and no `From` of a kind, since an R-block carries a code besides.
pub fn pcb_of_i(number: bool, more: bool) -> u8
    ensures { result ≡ pcb_of_i number more }
{
    let n = bit_of(number, 0x40);
    n + bit_of(more, 0x20)
}

// An R-block; of the code the four bits that it has room for.
pub fn pcb_of_r(number: bool, code: u8) -> u8
    ensures { result ≡ pcb_of_r number code }
{
    let n = bit_of(number, 0x10);
    0x80 + n + code % 16
}

// One of three numbers of what an S-block asks for (the others: the size of its field, how often it is asked), so no `From`.
fn what_number(w: What) -> u8
    ensures { (result ≡ what_number w) × (result < 4) }
{
    match w {
        What::Resynch => 0,
        What::Ifs => 1,
        What::Abort => 2,
        What::Wtx => 3,
    }
}

pub fn pcb_of_s(response: bool, w: What) -> u8
    ensures { result ≡ pcb_of_s response w }
{
    let n = bit_of(response, 0x20);
    0xC0 + n + what_number(w)
}
