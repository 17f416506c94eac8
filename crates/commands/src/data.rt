// The data of a command, and the byte that ends it.
ghost use Rattle.std.specs.Prelude.{◌≡◌, [], ◌∷◌, ◌++◌, ◌+◌, ◌≤◌, length};
ghost use Rattle.slices.specs.Writing.{put};
ghost use Rattle.start_fields.specs.Reading.{reading_of};
ghost use Rattle.session_records.specs.Slots.{told_in};
ghost use Rattle.dol_wanted.specs.Wanted.{most};
ghost use Rattle.dol_fill.specs.Filled.{filling};
ghost use Rattle.commands.specs.Commands.{data_size};

use dol_fill::Sources;
use dol_fill::fill::fill;
use dol_wanted::{MOST, total};
use slices::lay;

// How many bytes a list is filled with.
#[tactic(auto, using(crate::proofs::Sizes::size_all, crate::proofs::Sizes::size_none))]
pub fn data_size(list: &[u8]) -> usize
    ensures { (result ≡ data_size list.now) × (result ≤ most) }
{
    let n = total(list);
    if MOST < n { 0 } else { n }
}

// The list filled from a place on, and '00' after it.
pub fn lay_data(list: &[u8], from: Sources, buf: &mut [u8], at: usize)
    requires { at + (data_size list.now + 1) ≤ length buf.old }
    ensures { buf.new
        ≡ put (filling (reading_of from.entry.start.now) (told_in from.entry.known.now) list.now ++ (0 ∷ [])) at
        buf.old }
{
    let end = at + data_size(list);
    fill(list, from, buf, at);
    lay(buf, end, b"\x00");
}
