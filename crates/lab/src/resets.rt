// An answer to reset.
ghost use Rattle.std.specs.Prelude.{◌≡◌};
ghost use Rattle.atr.specs.Reading.{read_reset};
ghost use Rattle.lab.specs.Resets.{is_accepted, laid_reset, laid_told, laid_broken, laid_protocol, bit};

use atr::{Broken, Protocol, Told, read_reset};

// An answer to reset, after a cold or a warm one. True: inverse, F, D, N, interval, specific, the protocol, its parameters (WI; or IFSC, BWI
// and CWI) with zeros behind them, and where the historical bytes start and end. False: inverse, the rules broken, the first, its place.
pub fn lab_atr(capture: &[u8], warm: bool, told: &mut [u64; 12]) -> bool
    ensures value { result ≡ is_accepted (read_reset capture.now warm) }
    ensures told_after { told.new ≡ laid_reset (read_reset capture.now warm) }
{
    let answer = read_reset(capture, warm);
    let inverse = number_of(answer.inverse);
    match answer.reading {
        Ok(t) => {
            *told = told_numbers(inverse, t);
            true
        }
        Err(broken) => {
            *told = broken_numbers(inverse, broken);
            false
        }
    }
}

#[tactic(auto, unfolding(crate::specs::Resets::bit))]
fn number_of(b: bool) -> u64
    ensures { result ≡ bit b }
{
    u64::from(b)
}

// The protocol and its parameters.
#[tactic(auto, unfolding(crate::specs::Resets::laid_protocol))]
fn protocol_numbers(protocol: Protocol) -> [u64; 4]
    ensures { result ≡ laid_protocol protocol }
{
    match protocol {
        Protocol::T0 { wi } => [0, wi as u64, 0, 0],
        Protocol::T1 { ifsc, bwi, cwi } => [1, ifsc as u64, bwi as u64, cwi as u64],
    }
}

fn told_numbers(inverse: u64, t: Told) -> [u64; 12]
    ensures { result ≡ laid_told inverse t }
{
    let p = protocol_numbers(t.protocol);
    [
        inverse,
        t.f as u64,
        t.d as u64,
        t.n as u64,
        t.interval as u64,
        number_of(t.specific),
        p[0],
        p[1],
        p[2],
        p[3],
        t.start as u64,
        t.end as u64,
    ]
}

#[tactic(auto, unfolding(crate::specs::Resets::laid_broken))]
fn broken_numbers(inverse: u64, b: Broken) -> [u64; 12]
    ensures { result ≡ laid_broken inverse b }
{
    [
        inverse,
        b.rules as u64,
        b.first as u64,
        b.place as u64,
        0,
        0,
        0,
        0,
        0,
        0,
        0,
        0,
    ]
}
