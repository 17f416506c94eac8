// Whether a START is valid, a function for each condition.
#![tactic(auto)]

ghost use Rattle.std.specs.Prelude.{◌≡◌};
ghost use Rattle.start_fields.specs.Reading.{reading_of, aid_length_in, aid_room_in};
ghost use Rattle.start_valid.specs.Start.{valid_kind, valid_digits, valid_random, valid_percentages};
ghost use Rattle.start_valid.specs.Start.{valid_threshold, valid_aid, valid_start, begins_session};

use decimal_dates::dates::valid_start_date;
use decimal_dates::decimal::{digits_only, zeros_only};
use decimal_dates::limits::between;
use start_fields::fields;
use start_fields::fields::{AID_ROOM, FULL, Field};

#[tactic(auto, unfolding(crate::specs::Start::valid_kind))]
fn valid_kind(s: &[u8]) -> bool
    ensures { result ≡ valid_kind (reading_of s.now) }
{
    fields::kind(s) <= 2
}

#[tactic(auto, unfolding(crate::specs::Start::valid_digits, slices::specs::Tests::every, slices::specs::Choice::pick))]
fn valid_digits(s: &[u8]) -> bool
    ensures { result ≡ valid_digits s.now }
{
    digits_only(fields::digits(s))
        && digits_only(fields::bytes(s, Field::FloorLimit))
        && digits_only(fields::bytes(s, Field::Threshold))
}

#[tactic(auto, unfolding(crate::specs::Start::valid_random))]
fn valid_random(s: &[u8]) -> bool
    ensures { result ≡ valid_random (reading_of s.now) }
{
    between(1, 99, fields::random(s) as u64)
}

#[tactic(auto, unfolding(crate::specs::Start::valid_percentages, slices::specs::Tests::every, slices::specs::Choice::pick))]
fn valid_percentages(s: &[u8]) -> bool
    ensures { result ≡ valid_percentages (reading_of s.now) }
{
    let maximum = fields::maximum(s);
    fields::target(s) <= maximum && maximum <= 99
}

#[tactic(auto, unfolding(crate::specs::Start::valid_threshold, slices::specs::Choice::pick))]
fn valid_threshold(s: &[u8]) -> bool
    ensures { result ≡ valid_threshold (reading_of s.now) }
{
    let threshold = fields::threshold(s);
    threshold == 0 || threshold < fields::floor_limit(s)
}

#[tactic(auto, unfolding(crate::specs::Start::valid_aid, slices::specs::Tests::every, slices::specs::Choice::pick))]
fn valid_aid(s: &[u8]) -> bool
    ensures { result ≡ valid_aid (aid_length_in s.now) (aid_room_in s.now) }
{
    between(5, AID_ROOM as u64, fields::aid_length(s) as u64) && zeros_only(fields::aid_padding(s))
}

#[tactic(auto, unfolding(crate::specs::Start::valid_start, slices::specs::Tests::every, slices::specs::Choice::pick))]
pub fn valid_start(s: &[u8]) -> bool
    ensures { result ≡ valid_start s.now }
{
    fields::is_length(s.len())
        && valid_kind(s)
        && valid_digits(s)
        && valid_start_date(fields::bytes(s, Field::Date))
        && valid_random(s)
        && valid_percentages(s)
        && valid_threshold(s)
        && valid_aid(s)
}

// Whether a session can be begun with it: the shorter START is only judged.
#[tactic(auto, unfolding(crate::specs::Start::begins_session, slices::specs::Tests::every, slices::specs::Choice::pick))]
pub fn begins_session(s: &[u8]) -> bool
    ensures { result ≡ begins_session s.now }
{
    s.len() == FULL && valid_start(s)
}
