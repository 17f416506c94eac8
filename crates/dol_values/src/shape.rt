// A value in the room that a list entry gives it.
ghost use Rattle.std.specs.Prelude.{◌≡◌, ◌++◌, ◌-◌, length, take, replicate};
ghost use Rattle.dol_values.specs.Shape.{shaped};

use answer_common::content::Format;
use slices::{blank, lay};

// Cut or zero-filled on the left.
fn at_right_end(part: &mut [u8], v: &[u8])
    ensures { part.new ≡ shaped Format.Numeric (length part.old) v.now }
{
    blank(part, 0);
    if part.len() < v.len() {
        let from = v.len() - part.len();
        lay(part, 0, &v[from..]);
    } else {
        let at = part.len() - v.len();
        lay(part, at, v);
    }
}

// Cut on the right, or filled there with a byte.
fn at_left_end(part: &mut [u8], v: &[u8], filler: u8)
    ensures { part.new
        ≡ take (length part.old) v.now ++ replicate (length part.old - length v.now) filler }
{
    blank(part, filler);
    if part.len() < v.len() {
        let n = part.len();
        lay(part, 0, &v[..n]);
    } else {
        lay(part, 0, v);
    }
}

pub fn shape(part: &mut [u8], format: Format, v: &[u8])
    ensures { part.new ≡ shaped format (length part.old) v.now }
{
    match format {
        Format::Numeric => at_right_end(part, v),
        Format::CardNumber => at_left_end(part, v, 0xFF),
        Format::Other => at_left_end(part, v, 0),
        Format::Unknown => blank(part, 0),
    }
}
