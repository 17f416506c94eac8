// What START lists. No other file knows where it stands.
ghost use Rattle.std.specs.Prelude.{◌≡◌, [], ◌<◌, ◌≤◌, length, get_or};
ghost use Rattle.start_list.specs.Rows.{rows_in};
ghost use Rattle.start_list.specs.Listing.{count_at, choice_at, edition_at, count_in, fields_in, applications_in, listed_at};

use crate::rows::{mark, name, row};
use slices::{byte, part};

const COUNT: usize = 57;

const FIELDS: usize = 58;

const FIELDS_SIZE: usize = 144;

const MOST: usize = 8;

const CHOICE: usize = 205;

const EDITION: usize = 206;

// The number of AIDs as it stands there.
pub fn count_byte(s: &[u8]) -> usize
    ensures { (result ≡ get_or s.now count_at 0) × (result < 256) }
{
    byte(s, COUNT)
}

pub fn choice_byte(s: &[u8]) -> usize
    ensures { result ≡ get_or s.now choice_at 0 }
{
    byte(s, CHOICE)
}

pub fn edition(s: &[u8]) -> usize
    ensures { result ≡ get_or s.now edition_at 0 }
{
    byte(s, EDITION)
}

// The room of the eight fields.
pub fn fields(s: &[u8]) -> &[u8]
    ensures { result.now ≡ fields_in s.now }
{
    part(s, FIELDS, FIELDS_SIZE)
}

// How many of them are used; never more than there are.
pub fn count(s: &[u8]) -> usize
    ensures { (result ≡ count_in s.now) × (result ≤ 8) }
{
    count_byte(s).min(MOST)
}

// How many AIDs are listed.
pub fn listed_count(s: &[u8]) -> usize
    ensures { (result ≡ length (applications_in s.now).list) × (result ≤ 8) }
{
    count(s)
}

fn field(s: &[u8], k: usize) -> &[u8]
    ensures { result.now ≡ get_or (rows_in (count_in s.now) (fields_in s.now)) k [] }
{
    if k < count(s) {
        return row(fields(s), k);
    }
    part(s, 0, 0)
}

// The k-th AID, from 0, as a part of START; nothing past the last one.
pub fn listed_aid(s: &[u8], k: usize) -> &[u8]
    ensures { result.now ≡ (listed_at (applications_in s.now) k).aid }
{
    name(field(s, k))
}

// Whether a longer name that begins with it is supported too.
pub fn is_partial(s: &[u8], k: usize) -> bool
    ensures { result ≡ (listed_at (applications_in s.now) k).partial }
{
    mark(field(s, k)) == 1
}

// Whether the shopper can choose.
pub fn can_choose(s: &[u8]) -> bool
    ensures { result ≡ (applications_in s.now).choice }
{
    choice_byte(s) == 1
}
