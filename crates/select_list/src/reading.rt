// What the list has.
ghost use Rattle.std.specs.Prelude.{◌≡◌, [], ◌<◌, ◌≤◌, length, get_or};
ghost use Rattle.select_list.specs.Order.{shown_of};
ghost use Rattle.select_list.specs.Kept.{most_kept, kept_in, list_in, candidate_at};

use slices::{byte, part};
use start_list::rows::{mark, name, row};

// The bytes of a list: two of count, and 18 for each application.
pub const SIZE: usize = 6392;

pub const MOST: usize = 355;

const SHOWN: usize = 255;

pub fn count(list: &[u8]) -> usize
    ensures { (result ≡ length (list_in list.now)) × (result ≡ length (kept_in list.now)) × (result ≤ most_kept) }
{
    if list.len() != SIZE {
        return 0;
    }
    let n = 256 * byte(list, 0) + byte(list, 1);
    if n <= MOST { n } else { MOST }
}

// How many are shown.
pub fn shown(list: &[u8]) -> usize
    ensures { (result ≡ shown_of (list_in list.now)) × (result ≤ 255) }
{
    let n = count(list);
    if n <= SHOWN { n } else { SHOWN }
}

fn row_at(list: &[u8], i: usize) -> &[u8]
    ensures { result.now ≡ get_or (kept_in list.now) i [] }
{
    if i < count(list) {
        return row(part(list, 2, SIZE), i);
    }
    part(list, 0, 0)
}

// The name at a place, as a part of the list; nothing past the last one.
pub fn name_at(list: &[u8], i: usize) -> &[u8]
    ensures { result.now ≡ (candidate_at (list_in list.now) i).name }
{
    name(row_at(list, i))
}

pub fn standing_at(list: &[u8], i: usize) -> usize
    ensures { (result ≡ (candidate_at (list_in list.now) i).standing) × (result < 128) }
{
    mark(row_at(list, i)) % 128
}

// Whether the one at a place wants a confirmation.
pub fn confirms_at(list: &[u8], i: usize) -> bool
    ensures { result ≡ (candidate_at (list_in list.now) i).confirm }
{
    128 <= mark(row_at(list, i))
}
