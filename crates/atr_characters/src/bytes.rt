// Single bytes of a capture, as data.
ghost use Rattle.std.specs.Prelude.{◌≡◌, get_or};
ghost use Rattle.atr_characters.specs.Data.{data_byte, data_of, joined_from};

use atr_table::turned;

#[tactic(auto, unfolding(crate::specs::Data::data_byte, slices::specs::Choice::pick))]
fn data_byte(b: u8, inverse: bool) -> u8
    ensures { result ≡ data_byte inverse b }
{
    if inverse { turned(b) } else { b }
}

// The character at a place; 0 past the end.
#[tactic(auto, using(crate::proofs::Data::data_at, crate::proofs::Data::data_past))]
pub fn character(capture: &[u8], inverse: bool, place: usize) -> u8
    ensures { result ≡ get_or (data_of inverse capture.now) place 0 }
{
    if place < capture.len() {
        data_byte(capture[place], inverse)
    } else {
        0
    }
}

// What some captured bytes give by exclusive or.
#[tactic(auto, using(crate::proofs::Data::joined_on, crate::proofs::Data::joined_end))]
pub fn joined(s: &[u8], inverse: bool) -> u8
    ensures { result ≡ joined_from 0 (data_of inverse s.now) }
{
    let mut x = 0;
    for b in s {
        x ^= data_byte(*b, inverse);
    }
    x
}
