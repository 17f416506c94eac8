// Reading an answer to reset: from the captured bytes, and whether the reset was cold or warm, either what the answer tells or the
// rules that it breaks.
#![tactic(auto)]

ghost use Rattle.std.specs.Prelude.{◌≡◌};
ghost use Rattle.atr.specs.Reading.{is_inverse, ts_broken, protocol_of, interval_of, told_of, read_reset, historical_of};

use atr_characters::{Located, locate, protocol, value};
use atr_rules::broken_rules;
use atr_sets::{first_rule, place_of};
use slices::{byte, part};

// What counts for a TB3 that is not there: no BWI, 16, and a CWI of 0. An answer of T=1 without TB3 breaks a rule.
const NO_TB3: usize = 256;

// The protocol in use, with its own parameters.
#[derive(Clone, Copy)]
pub enum Protocol {
    T0 { wi: usize },
    T1 { ifsc: usize, bwi: usize, cwi: usize },
}

// What an answer tells: F and D, N, the least interval in etu, whether TA2 was there, the protocol, and where the historical
// bytes start and end in the capture.
#[derive(Clone, Copy)]
pub struct Told {
    pub f: usize,
    pub d: usize,
    pub n: usize,
    pub interval: usize,
    pub specific: bool,
    pub protocol: Protocol,
    pub start: usize,
    pub end: usize,
}

// The rules broken, a bit for each and the lowest for rule 1; the first of them, and its place in the capture.
#[derive(Clone, Copy)]
pub struct Broken {
    pub rules: usize,
    pub first: usize,
    pub place: usize,
}

// An answer to reset as it was captured: the convention by TS, and what the answer tells, or what it breaks.
#[derive(Clone, Copy)]
pub struct Reset {
    pub inverse: bool,
    pub reading: Result<Told, Broken>,
}

pub fn read_reset(capture: &[u8], warm: bool) -> Reset
    ensures { result ≡ read_reset capture.now warm }
{
    let inverse = is_inverse(capture);
    let l = locate(capture, inverse);
    let rules = broken_rules(is_ts_broken(capture), l, warm);
    if rules == 0 {
        return Reset {
            inverse,
            reading: Ok(told_by(l)),
        };
    }
    let first = first_rule(rules);
    let broken = Broken {
        rules,
        first,
        place: place_of(l, first),
    };
    Reset {
        inverse,
        reading: Err(broken),
    }
}

// The historical bytes, as a part of the capture itself; under the inverse convention they are line bytes.
#[tactic(auto, unfolding(crate::specs::Reading::historical_of))]
pub fn historical(capture: &[u8], told: Told) -> &[u8]
    ensures { result.now ≡ historical_of capture.now told }
{
    part(capture, told.start, told.end.saturating_sub(told.start))
}

#[tactic(auto, unfolding(crate::specs::Reading::is_inverse))]
fn is_inverse(capture: &[u8]) -> bool
    ensures { result ≡ is_inverse capture.now }
{
    byte(capture, 0) == 0x03
}

#[tactic(auto, unfolding(crate::specs::Reading::ts_broken))]
fn is_ts_broken(capture: &[u8]) -> bool
    ensures { result ≡ ts_broken capture.now }
{
    let ts = byte(capture, 0);
    (0 < capture.len()) & (ts != 0x3B) & (ts != 0x03)
}

#[tactic(auto, unfolding(crate::specs::Reading::protocol_of, crate::specs::Reading::or_else, slices::specs::Choice::pick))]
fn protocol_of(l: Located) -> Protocol
    ensures { result ≡ protocol_of l }
{
    if protocol(l.first.td) == 1 {
        let tb3 = l.third.tb.unwrap_or(NO_TB3);
        return Protocol::T1 {
            ifsc: l.third.ta.unwrap_or(0x20),
            bwi: tb3 / 16,
            cwi: tb3 % 16,
        };
    }
    Protocol::T0 {
        wi: l.second.tc.unwrap_or(10),
    }
}

#[tactic(auto, unfolding(crate::specs::Reading::interval_of, slices::specs::Choice::pick))]
fn interval_of(l: Located) -> usize
    ensures { result ≡ interval_of l }
{
    let n = value(l.first.tc);
    if n != 0xFF {
        return 12 + n % 256;
    }
    if protocol(l.first.td) == 1 { 11 } else { 12 }
}

#[tactic(auto, unfolding(crate::specs::Reading::told_of))]
fn told_by(l: Located) -> Told
    ensures { result ≡ told_of l }
{
    Told {
        f: 372,
        d: 1,
        n: value(l.first.tc) % 256,
        interval: interval_of(l),
        specific: l.second.ta.is_some(),
        protocol: protocol_of(l),
        start: l.start,
        end: l.end,
    }
}
