// The line that says what was read.
use crate::names::name;
use atr::{Protocol, Told, historical, read_reset};
use atr_characters::{Located, locate};
use atr_sets::{RULES, has_rule, place_of};
use atr_table::turned;
use std::io;

pub fn report(rt: &impl Print, capture: &[u8], warm: bool) -> io::Result<()> {
    let answer = read_reset(capture, warm);
    match answer.reading {
        Ok(told) => accepted(rt, capture, answer.inverse, told)?,
        Err(broken) => refused(rt, locate(capture, answer.inverse), broken.rules)?,
    }
    print!(rt; "\n")
}

fn accepted(rt: &impl Print, capture: &[u8], inverse: bool, told: Told) -> io::Result<()> {
    let convention = if inverse { "inverse" } else { "direct" };
    let mode = if told.specific {
        "specific"
    } else {
        "negotiable"
    };
    print!(rt;
        "ACCEPTED {convention} {} {mode}",
        protocol_name(told.protocol)
    )?;
    print!(rt;
        " F={} D={} N={} interval={}",
        told.f, told.d, told.n, told.interval
    )?;
    print_own(rt, told.protocol)?;
    print!(rt; " historical={}..{}:", told.start, told.end)?;
    bytes(rt, historical(capture, told), inverse)
}

fn protocol_name(protocol: Protocol) -> &'static str {
    match protocol {
        Protocol::T0 { .. } => "T=0",
        Protocol::T1 { .. } => "T=1",
    }
}

// The parameters of the protocol in use.
fn print_own(rt: &impl Print, protocol: Protocol) -> io::Result<()> {
    match protocol {
        Protocol::T0 { wi } => print!(rt; " WI={wi}"),
        Protocol::T1 { ifsc, bwi, cwi } => print!(rt; " IFSC={ifsc} BWI={bwi} CWI={cwi}"),
    }
}

// Bytes as captured, and under the inverse convention as data.
fn bytes(rt: &impl Print, s: &[u8], inverse: bool) -> io::Result<()> {
    text_print::bytes_or_dash(rt, s)?;
    if inverse {
        print!(rt; " data=")?;
        data_or_dash(rt, s)?;
    }
    Ok(())
}

fn data_or_dash(rt: &impl Print, s: &[u8]) -> io::Result<()> {
    if s.is_empty() {
        return print!(rt; "-");
    }
    for b in s {
        text_print::bytes(rt, &[turned(*b)])?;
    }
    Ok(())
}

// The rules broken, each with the place of its character.
fn refused(rt: &impl Print, l: Located, rules: usize) -> io::Result<()> {
    print!(rt; "REFUSED")?;
    for rule in 1..=RULES {
        if has_rule(rules, rule) {
            print!(rt; " {}@{}", name(rule), place_of(l, rule))?;
        }
    }
    Ok(())
}
