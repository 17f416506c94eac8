// Whether START's list is valid.
ghost use Rattle.std.specs.Prelude.{◌≡◌, map, ◌*◌, drop};
ghost use Rattle.slices.specs.Tests.{every};
ghost use Rattle.decimal_dates.specs.Decimal.{zeros_only};
ghost use Rattle.start_list.specs.Rows.{row_size, rows_in};
ghost use Rattle.start_list.specs.Listing.{count_in, fields_in};
ghost use Rattle.start_list.specs.Valid.{valid_field, valid_list};

use crate::listing;
use crate::rows::{NAME_ROOM, ROW, mark, room, row};
use decimal_dates::decimal::zeros_only;
use decimal_dates::limits::between;
use slices::{byte, part};

fn valid_field(f: &[u8]) -> bool
    ensures { result ≡ valid_field f.now }
{
    let n = byte(f, 0);
    if !between(5, NAME_ROOM as u64, n as u64) {
        return false;
    }
    zeros_only(part(room(f), n, NAME_ROOM)) && mark(f) <= 1
}

// The fields that are used.
fn valid_fields(s: &[u8]) -> bool
    ensures { result ≡ every (map valid_field (rows_in (count_in s.now) (fields_in s.now))) }
{
    for k in 0..listing::count(s) {
        if !valid_field(row(listing::fields(s), k)) {
            return false;
        }
    }
    true
}

// The others.
fn unused_zero(s: &[u8]) -> bool
    ensures { result ≡ zeros_only (drop (row_size * count_in s.now) (fields_in s.now)) }
{
    let n = listing::count(s);
    let room = listing::fields(s);
    zeros_only(part(room, ROW * n, room.len()))
}

#[tactic(auto, unfolding(crate::specs::Valid::valid_list, slices::specs::Tests::every, slices::specs::Choice::pick))]
pub fn valid_list(s: &[u8]) -> bool
    ensures { result ≡ valid_list s.now }
{
    between(1, 8, listing::count_byte(s) as u64)
        && valid_fields(s)
        && unused_zero(s)
        && listing::choice_byte(s) <= 1
        && listing::edition(s) == 1
}
