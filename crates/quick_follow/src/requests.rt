// After the last record: the bits that the facts set, the results of cardholder verification where they are due, and the first request.
ghost use Rattle.std.specs.Prelude.{◌≡◌};
ghost use Rattle.session_records.specs.Slots.{told_in};
ghost use Rattle.answer_record.specs.Records.{after_records};
ghost use Rattle.rulebook.specs.Phase.{hears, says};
ghost use Rattle.rulebook.specs.Turn.{requested, verifying, all_read};
ghost use Rattle.words.specs.declared.Word.TheVariants.{Results};
ghost use Rattle.slices.specs.Writing.{zeros as zero_bytes};
ghost use Rattle.quick_said.specs.Said.{found_from};
ghost use Rattle.quick_ask.specs.Standing.{situation_in};
ghost use Rattle.quick_follow.specs.Standing.{situation_of};

use crate::ending::end;
use crate::online::from_first;
use crate::standing::{Place, Standing};
use answer_record::complete_reason;
use decide_requests::requests::first_request;
use decide_tvr::results::{tsi_after_records, tvr_after_records};
use decide_verification::{is_due, tsi_after_results, tvr_after_results, wanted};
use dol_fill::Sources;
use dol_fill::count::{sum, unsupplied};
use numbers::{FOR_MISSING, RESULTS};
use quick_ask::ask;
use quick_ask::known::at_first;
use quick_meet::meet::{fail, payload_at, stop, word};
use session_records::END;
use session_records::slots::value;
use verdict::Finding;
use words::{Word, is_allowed};

// The first request, or the end where its list cannot be filled.
fn first(tape: &[u8], at: Place, s: Standing) -> Finding
    ensures { result
        ≡ found_from (requested (after_records (told_in s.entry.told.now)) (situation_of s.entry)) at.k at.zeros tape.now }
{
    let told = s.told;
    let why = complete_reason(told);
    if why != 0 {
        return end(tape, at, why, s.tvr, s.tsi);
    }
    let request = first_request(s.start, told, s.tvr);
    let list = value(told, 0x8C);
    let known = at_first(told, s.profile, s.tvr, s.tsi);
    let from = Sources {
        start: s.start,
        known: &known,
    };
    let zeros = sum(at.zeros, unsupplied(list, from));
    if let Err(ruling) = ask::cryptogram(tape, at.k, request, list, from) {
        return stop(ruling, zeros);
    }
    let a = payload_at(tape, at.k + 1);
    let next = Place { k: at.k + 2, zeros };
    from_first(tape, next, request, a, s)
}

// Where the results are due.
fn results(tape: &[u8], at: Place, s: Standing) -> Finding
    ensures { result ≡ found_from (hears (says Results (situation_of s.entry))) at.k at.zeros tape.now }
{
    if let Err(ruling) = word(tape, at.k, RESULTS) {
        return stop(ruling, at.zeros);
    }
    let p = payload_at(tape, at.k);
    let told = s.told;
    if !is_allowed(Word::Results, wanted(told), p) {
        return fail(at.k, at.zeros);
    }
    let tvr = tvr_after_results(s.start, told, p, s.tvr);
    let tsi = tsi_after_results(s.tsi);
    let next = Place {
        k: at.k + 1,
        zeros: at.zeros,
    };
    first(tape, next, Standing { tvr, tsi, ..s })
}

// The results, where they are due; else the first request.
fn verify(tape: &[u8], at: Place, s: Standing) -> Finding
    ensures { result ≡ found_from (verifying (situation_of s.entry)) at.k at.zeros tape.now }
{
    let told = s.told;
    if is_due(s.start, s.profile, told) {
        return results(tape, at, s);
    }
    first(tape, at, s)
}

// After the last record. TVR and TSI are zeros up to here.
pub fn all_read(tape: &[u8], at: Place, start: &[u8], told: &[u8; END], profile: [u8; 2]) -> Finding
    ensures { result
        ≡ found_from (all_read (situation_in start.now told.now profile (zero_bytes 5) (zero_bytes 2))) at.k at.zeros
        tape.now }
{
    if complete_reason(told) == FOR_MISSING {
        return end(tape, at, FOR_MISSING, [0; 5], [0; 2]);
    }
    let tvr = tvr_after_records(start, profile, told, [0; 5]);
    let tsi = tsi_after_records(profile, [0; 2]);
    let s = Standing {
        start,
        told,
        profile,
        tvr,
        tsi,
    };
    verify(tape, at, s)
}
