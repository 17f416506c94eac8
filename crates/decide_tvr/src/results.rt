// The TVR and the TSI after the last record, and after the first answer.
ghost use Rattle.std.specs.Prelude.{◌≡◌, []};
ghost use Rattle.start_fields.specs.Reading.{reading_of};
ghost use Rattle.std.proofs.Math.Option.{get_or};
ghost use Rattle.session_records.specs.Slots.{told_in};
ghost use Rattle.decide_tvr.specs.Results.{different_versions, expired as expired_of, not_yet_effective, risk_managed};
ghost use Rattle.decide_tvr.specs.Results.{at_floor_limit, drawn as drawn_of, restrictions as restrictions_of};
ghost use Rattle.decide_tvr.specs.Results.{risks as risks_of, tvr_after_records, tsi_after_records, tsi_after_first_answer};

use super::bits;
use super::selection::selected;
use decimal_dates::dates::date_key;
use session_records::slots::{has, value};
use start_fields::fields;
use start_fields::fields::Field;

#[tactic(auto, using(session_records::proofs::Present::is_there_lem, session_records::proofs::Present::is_none), unfolding(crate::specs::Results::different_versions))]
fn different_versions(start: &[u8], told: &[u8]) -> bool
    ensures { result ≡ different_versions (reading_of start.now) (told_in told.now 0x9F08) }
{
    has(told, 0x9F08) && !slices::alike(value(told, 0x9F08), fields::bytes(start, Field::Version))
}

#[tactic(auto, unfolding(crate::specs::Results::expired))]
fn expired(start: &[u8], told: &[u8]) -> bool
    ensures { result ≡ expired_of (reading_of start.now) (get_or (told_in told.now 0x5F24) []) }
{
    date_key(value(told, 0x5F24)) < date_key(fields::bytes(start, Field::Date))
}

#[tactic(auto, using(session_records::proofs::Present::is_there_lem, session_records::proofs::Present::is_none), unfolding(crate::specs::Results::not_yet_effective))]
fn not_yet_effective(start: &[u8], told: &[u8]) -> bool
    ensures { result ≡ not_yet_effective (reading_of start.now) (told_in told.now 0x5F25) }
{
    has(told, 0x5F25) && date_key(fields::bytes(start, Field::Date)) < date_key(value(told, 0x5F25))
}

#[tactic(auto, unfolding(crate::specs::Results::risk_managed))]
fn risk_managed(aip: [u8; 2]) -> bool
    ensures { result ≡ risk_managed aip }
{
    aip[0] & 0x08 != 0
}

#[tactic(auto, unfolding(crate::specs::Results::at_floor_limit))]
fn at_floor_limit(start: &[u8]) -> bool
    ensures { result ≡ at_floor_limit (reading_of start.now) }
{
    fields::amount(start) >= fields::floor_limit(start)
}

#[tactic(auto, unfolding(crate::specs::Results::drawn, slices::specs::Tests::every, slices::specs::Choice::pick))]
fn drawn(start: &[u8]) -> bool
    ensures { result ≡ drawn_of (reading_of start.now) }
{
    fields::kind(start) == 2
        && fields::amount(start) < fields::floor_limit(start)
        && selected(start)
}

#[tactic(auto, unfolding(crate::specs::Results::restrictions))]
fn restrictions(start: &[u8], told: &[u8]) -> u8
    ensures { result ≡ restrictions_of (reading_of start.now) (told_in told.now) }
{
    bits::flag(different_versions(start, told), 0x80)
        + (bits::flag(expired(start, told), 0x40)
            + bits::flag(not_yet_effective(start, told), 0x20))
}

#[tactic(auto, unfolding(crate::specs::Results::risks, slices::specs::Choice::pick))]
fn risks(start: &[u8], aip: [u8; 2]) -> u8
    ensures { result ≡ risks_of (reading_of start.now) aip }
{
    if risk_managed(aip) {
        bits::flag(at_floor_limit(start), 0x80) + bits::flag(drawn(start), 0x10)
    } else {
        0
    }
}

// Given START, the AIP and the slots of what the records told.
#[tactic(auto, unfolding(crate::specs::Results::tvr_after_records))]
pub fn tvr_after_records(start: &[u8], aip: [u8; 2], told: &[u8], tvr: [u8; 5]) -> [u8; 5]
    ensures { result ≡ tvr_after_records (reading_of start.now) aip (told_in told.now) tvr }
{
    let set = [0x80, restrictions(start, told), 0, risks(start, aip), 0];
    bits::join(tvr, set)
}

#[tactic(auto, unfolding(crate::specs::Results::tsi_after_records))]
pub fn tsi_after_records(aip: [u8; 2], tsi: [u8; 2]) -> [u8; 2]
    ensures { result ≡ tsi_after_records aip tsi }
{
    let set = [bits::flag(risk_managed(aip), 0x08), 0];
    bits::join(tsi, set)
}

#[tactic(auto, unfolding(crate::specs::Results::tsi_after_first_answer))]
pub fn tsi_after_first_answer(tsi: [u8; 2]) -> [u8; 2]
    ensures { result ≡ tsi_after_first_answer tsi }
{
    bits::join(tsi, [0x20, 0])
}
