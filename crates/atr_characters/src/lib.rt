// The characters of an answer to reset: where each stands in the capture, and what it says.
#![tactic(auto)]

mod bytes;

ghost use Rattle.std.specs.Prelude.{◌≡◌, ◌+◌, ◌<◌, ◌≤◌, ◌^◌, length};
ghost use Rattle.atr_characters.specs.Data.{data_of, one_if};
ghost use Rattle.atr_characters.specs.Levels.{value, named, found_at, level_of, Bytes, interface_of};
ghost use Rattle.atr_characters.specs.Located.{located_of};

use bytes::{character, joined};
use slices::part;

// One level: its characters, None where one is not announced, or not in the capture; where each stands or would stand; and where the
// next level starts.
#[derive(Clone, Copy)]
pub struct Level {
    pub ta: Option<usize>,
    pub tb: Option<usize>,
    pub tc: Option<usize>,
    pub td: Option<usize>,
    pub a: usize,
    pub b: usize,
    pub c: usize,
    pub d: usize,
    pub next: usize,
}

// All levels: what follows them, and whether one of their TD names a protocol other than T=0.
#[derive(Clone, Copy)]
pub struct Interface {
    pub next: usize,
    pub other: bool,
}

pub fn one(b: bool) -> usize
    ensures { (result ≡ one_if b) × (result ≤ 1) }
{
    usize::from(b)
}

// What a character says; one that is not there says 0: it announces nothing, and as a TDi it names T=0.
pub fn value(c: Option<usize>) -> usize
    ensures { result ≡ value c }
{
    c.unwrap_or(0)
}

// The protocol that a TDi names.
pub fn protocol(td: Option<usize>) -> usize
    ensures { result ≡ named td }
{
    value(td) % 16
}

// The character at a place, where it is announced (1) and in the capture.
#[tactic(auto, using(crate::proofs::Data::data_length), unfolding(crate::specs::Levels::found_at, slices::specs::Choice::pick))]
fn found(capture: &[u8], inverse: bool, announced: usize, place: usize) -> Option<usize>
    ensures { (result ≡ found_at (data_of inverse capture.now) announced place) × (value result < 256) }
{
    if announced == 1 && place < capture.len() {
        Some(character(capture, inverse, place) as usize)
    } else {
        None
    }
}

// The level that a bit map announces from a place on.
#[tactic(auto, using(crate::proofs::Reach::level_made), unfolding(crate::specs::Levels::level_of))]
fn level_at(capture: &[u8], inverse: bool, map: usize, from: usize) -> Level
    requires { from + 4 < 2 ^ 64 }
    ensures { (result ≡ level_of (data_of inverse capture.now) map from) × Bytes result }
{
    let b = from + map / 16 % 2;
    let c = b + map / 32 % 2;
    let d = c + map / 64 % 2;
    Level {
        ta: found(capture, inverse, map / 16 % 2, from),
        tb: found(capture, inverse, map / 32 % 2, b),
        tc: found(capture, inverse, map / 64 % 2, c),
        td: found(capture, inverse, map / 128 % 2, d),
        a: from,
        b,
        c,
        d,
        next: d + map / 128 % 2,
    }
}

// Each level that is announced has a character at least, so that going on once for each byte reaches the last.
fn walk(capture: &[u8], inverse: bool) -> Interface
    ensures { (result ≡ interface_of (data_of inverse capture.now)) × (result.next ≤ length capture.now + 4) }
{
    let mut l = level_at(capture, inverse, character(capture, inverse, 1) as usize, 2);
    let mut other = protocol(l.td) != 0;
    for _ in capture {
        l = level_at(capture, inverse, value(l.td), l.next);
        other |= protocol(l.td) != 0;
    }
    Interface {
        next: l.next,
        other,
    }
}

// What the rules ask of a capture: how many bytes it has; the first three levels; where the historical bytes start and end;
// whether a TCK is due; what follows all that is announced; and what T0 to TCK give by exclusive or.
#[derive(Clone, Copy)]
pub struct Located {
    pub size: usize,
    pub first: Level,
    pub second: Level,
    pub third: Level,
    pub start: usize,
    pub end: usize,
    pub due: bool,
    pub after: usize,
    pub joined: u8,
}

pub fn locate(capture: &[u8], inverse: bool) -> Located
    ensures located { result ≡ located_of (data_of inverse capture.now) }
    ensures bytes { Bytes result.first × Bytes result.second × Bytes result.third }
{
    let t0 = character(capture, inverse, 1) as usize;
    let first = level_at(capture, inverse, t0, 2);
    let second = level_at(capture, inverse, value(first.td), first.next);
    let third = level_at(capture, inverse, value(second.td), second.next);
    let found = walk(capture, inverse);
    let end = found.next + t0 % 16;
    Located {
        size: capture.len(),
        first,
        second,
        third,
        start: found.next,
        end,
        due: found.other,
        after: end + one(found.other),
        joined: joined(part(capture, 1, end), inverse),
    }
}
