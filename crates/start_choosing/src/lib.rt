// START with the terminal's list of applications, 207 bytes: what it holds beside its list, and whether it is valid.
#![tactic(auto)]

ghost use Rattle.std.specs.Prelude.{◌≡◌};
ghost use Rattle.start_choosing.specs.Start.{alone_in, valid_listing};

use slices::{lay, part};
use start_fields::fields::FULL;
use start_list::valid::valid_list;
use start_valid::valid_start;

pub const LISTING: usize = 207;

// What it holds beside its list, as a START of 77 bytes that knows the list's first AID alone; zeros where it is of another length.
pub fn first_alone(s: &[u8]) -> [u8; FULL]
    ensures { result ≡ alone_in s.now }
{
    let mut alone = [0; FULL];
    if s.len() != LISTING {
        return alone;
    }
    lay(&mut alone, 0, part(s, 0, 57));
    lay(&mut alone, 57, part(s, 58, 17));
    lay(&mut alone, 74, part(s, 202, 3));
    alone
}

#[tactic(auto, unfolding(crate::specs::Start::valid_listing, crate::specs::Start::alone_in, crate::specs::Start::is_listing, slices::specs::Tests::every, slices::specs::Choice::pick))]
pub fn valid_listing(s: &[u8]) -> bool
    ensures { result ≡ valid_listing s.now }
{
    s.len() == LISTING && valid_start(&first_alone(s)) && valid_list(s)
}
