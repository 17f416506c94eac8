// The rules of an answer to reset, as bits: the lowest for number 1, in the order of the characters.
#![tactic(auto)]

ghost use Rattle.std.specs.Prelude.{◌≡◌, ◌%◌, ◌^◌, ◌<◌};
ghost use Rattle.atr_rules.specs.Tests.{is_other};
ghost use Rattle.atr_rules.specs.Lines.{first_lines, second_lines, third_lines, last_lines, lines_of, set_of};

use atr_characters::{Located, one, protocol, value};

// Where the first character too many stands: at most 32 follow TS.
pub const LONG_PLACE: usize = 33;

fn power(exponent: usize) -> usize
    ensures { result ≡ 2 ^ (exponent % 16) }
{
    1 << (exponent % 16)
}

// Whether a character is there, and is not the one that alone is allowed.
fn is_other(c: Option<usize>, only: usize) -> bool
    ensures { result ≡ is_other c only }
{
    c.is_some_and(|x| x != only)
}

// TA1 to TD1.
fn first_rules(l: Located, warm: bool) -> usize
    ensures { (result ≡ set_of (first_lines l warm)) × (result < 16) }
{
    let negotiable = l.second.ta.is_none() | (value(l.second.ta) / 16 % 2 == 0);
    let ta1 = is_other(l.first.ta, 0x11) & negotiable;
    let tb1_absent = !warm & l.first.tb.is_none() & (l.first.c <= l.size);
    let tb1 = !warm & is_other(l.first.tb, 0);
    let td1 = 1 < protocol(l.first.td);
    one(ta1) + 2 * one(tb1_absent) + 4 * one(tb1) + 8 * one(td1)
}

// TA2 to TD2.
fn second_rules(l: Located) -> usize
    ensures { (result ≡ set_of (second_lines l)) × (result < 16) }
{
    let ta2 = l.second.ta.is_some() & (value(l.second.ta) / 16 % 2 == 1);
    let tb2 = l.second.tb.is_some();
    let tc2 = is_other(l.second.tc, 0x0A);
    let named = protocol(l.second.td);
    let other = (named == 0xE) & (protocol(l.first.td) == 0);
    let td2 = l.second.td.is_some() & (named != 1) & !other;
    one(ta2) + 2 * one(tb2) + 4 * one(tc2) + 8 * one(td2)
}

// TA3 to TC3.
fn third_rules(l: Located) -> usize
    ensures { (result ≡ set_of (third_lines l)) × (result < 64) }
{
    let ta = value(l.third.ta);
    let tb = value(l.third.tb);
    let t1 = protocol(l.second.td) == 1;
    let ta3 = t1 & l.third.ta.is_some() & ((ta < 0x10) | (ta == 0xFF));
    let tb3 = t1 & l.third.tb.is_some();
    let any_t1 = t1 | (protocol(l.first.td) == 1);
    let absent = any_t1 & l.third.tb.is_none() & (l.third.c <= l.size);
    let bwi = tb3 & (4 < tb / 16);
    let cwi = tb3 & (5 < tb % 16);
    let guard = tb3 & (power(tb) < (value(l.first.tc) % 256 + 1) % 256);
    let tc3 = t1 & is_other(l.third.tc, 0);
    one(ta3) + 2 * one(absent) + 4 * one(bwi) + 8 * one(cwi) + 16 * one(guard) + 32 * one(tc3)
}

// The end of the capture.
fn last_rules(l: Located) -> usize
    ensures { (result ≡ set_of (last_lines l)) × (result < 128) }
{
    let long = LONG_PLACE < l.size;
    let before = long & (LONG_PLACE < l.end);
    let cut = l.size < l.end;
    let tck_absent = l.due & (l.size == l.end);
    let tck = l.due & (l.end < l.size) & (l.joined != 0);
    let between = long & !(LONG_PLACE < l.end) & (LONG_PLACE < l.after);
    let extra = l.after < l.size;
    let behind = long & !(LONG_PLACE < l.end) & !(LONG_PLACE < l.after);
    one(before)
        + 2 * one(cut)
        + 4 * one(tck_absent)
        + 8 * one(tck)
        + 16 * one(between)
        + 32 * one(extra)
        + 64 * one(behind)
}

// Every rule that is broken. Where TS is, nothing else is judged.
pub fn broken_rules(ts: bool, l: Located, warm: bool) -> usize
    ensures { result ≡ set_of (lines_of ts l warm) }
{
    if ts {
        return 1;
    }
    2 * (first_rules(l, warm) + 16 * second_rules(l) + 256 * third_rules(l) + 16384 * last_rules(l))
}
