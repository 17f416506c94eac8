// Cardholder verification in a session: whether results are due, how many, and what they set in TVR and TSI.
#![tactic(auto)]

ghost use Rattle.std.specs.Prelude.{◌≡◌, get_or};
ghost use Rattle.start_fields.specs.Reading.{reading_of, bytes_of};
ghost use Rattle.session_records.specs.Slots.{told_in};
ghost use Rattle.cvm.specs.Lists.{in_application_currency};
ghost use Rattle.decide_verification.specs.Verification.{verification_supported, results_due, results_wanted};
ghost use Rattle.decide_verification.specs.Verification.{circumstances_of, tvr_after_results, tsi_after_results};

use cvm::list::{in_application_currency, rules_in};
use cvm::verify::verify;
use cvm_rules::Circumstances;
use decide_tvr::bits;
use session_records::slots::{has, value};
use start_fields::fields;
use start_fields::fields::Field;

fn is_supported(aip: [u8; 2]) -> bool
    ensures { result ≡ verification_supported aip }
{
    aip[0] & 0x10 != 0
}

// Given START, the AIP and the slots of what the records told.
#[tactic(auto, unfolding(crate::specs::Verification::results_due, slices::specs::Tests::every, slices::specs::Choice::pick))]
pub fn is_due(start: &[u8], aip: [u8; 2], told: &[u8]) -> bool
    ensures { result ≡ results_due (reading_of start.now) aip (told_in told.now) }
{
    fields::has_capabilities(start) && is_supported(aip) && has(told, 0x8E)
}

// How many results.
pub fn wanted(told: &[u8]) -> usize
    ensures { result ≡ results_wanted (told_in told.now) }
{
    rules_in(value(told, 0x8E))
}

// A byte of a field; 0 where it is not there.
fn octet(start: &[u8], f: Field, i: usize) -> u8
    ensures { result ≡ get_or (bytes_of f (reading_of start.now)) i 0 }
{
    slices::byte(fields::bytes(start, f), i) as u8
}

// Whether the application's currency is told, and is the transaction's.
fn is_home(start: &[u8], told: &[u8]) -> bool
    ensures { result ≡ in_application_currency (told_in told.now 0x9F42) (reading_of start.now).currency }
{
    in_application_currency(
        has(told, 0x9F42),
        value(told, 0x9F42),
        fields::bytes(start, Field::Currency),
    )
}

fn circumstances(start: &[u8], told: &[u8]) -> Circumstances
    ensures { result ≡ circumstances_of (reading_of start.now) (told_in told.now) }
{
    Circumstances {
        amount: fields::amount(start),
        other: fields::other_amount(start),
        kind: octet(start, Field::TransactionType, 0),
        home: is_home(start, told),
        means: octet(start, Field::Capabilities, 1),
    }
}

// Given START, the slots of what the records told, and the results.
pub fn tvr_after_results(start: &[u8], told: &[u8], results: &[u8], tvr: [u8; 5]) -> [u8; 5]
    ensures { result ≡ tvr_after_results (reading_of start.now) (told_in told.now) results.now tvr }
{
    let set = [
        0,
        0,
        verify(value(told, 0x8E), results, circumstances(start, told)),
        0,
        0,
    ];
    bits::join(tvr, set)
}

pub fn tsi_after_results(tsi: [u8; 2]) -> [u8; 2]
    ensures { result ≡ tsi_after_results tsi }
{
    bits::join(tsi, [0x40, 0])
}
