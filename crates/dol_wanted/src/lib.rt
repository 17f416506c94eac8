// What an object list asks for.
#![tactic(auto)]

ghost use Rattle.std.specs.Prelude.{◌≡◌, ◌+◌, ◌<◌, ◌≤◌};
ghost use Rattle.dol_wanted.specs.Wanted.{size_at, most, asks, fillable, tally};

use slices::byte;
use tlv_head::tag::{is_tag_right, tag_size};

// The most bytes that a list may ask for.
pub const MOST: usize = 252;

// What stands for a list that cannot be filled.
const OVER: usize = MOST + 1;

// Whether a tag and its length byte stand at the front.
fn is_entry(s: &[u8]) -> bool
    ensures { result ≡ asks s.now }
{
    is_tag_right(s) && tag_size(s) + 1 <= s.len()
}

// How many bytes the entry at the front asks for.
pub fn size_at(s: &[u8]) -> usize
    ensures { (result ≡ size_at s.now) × (result < 256) }
{
    byte(s, tag_size(s))
}

// How many bytes a list asks for; one more than it may, where it is malformed or asks for too much.
pub fn total(list: &[u8]) -> usize
    ensures { (result ≡ tally list.now) × (result ≤ most + 1) }
{
    let mut sum = 0;
    let mut rest = list;
    while !rest.is_empty() {
        if is_entry(rest) {
            sum += size_at(rest);
            if MOST < sum {
                return OVER;
            }
            let n = tag_size(rest) + 1;
            rest = &rest[n..];
        } else {
            return OVER;
        }
    }
    sum
}

pub fn is_fillable(list: &[u8]) -> bool
    ensures { result ≡ fillable list.now }
{
    total(list) <= MOST
}
