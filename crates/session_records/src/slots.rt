// The slot of each name, and what is kept there and read.
ghost use Rattle.std.specs.Prelude.{◌≡◌, [], ◌+◌, ◌≤◌};
ghost use Rattle.std.proofs.Math.Option.{get_or};
ghost use Rattle.slices.specs.Tables.{beside};
ghost use Rattle.answer_common.specs.Content.{rule_for};
ghost use Rattle.slices.specs.Tests.{is_some};
ghost use Rattle.session_records.specs.Runs.{longest};
ghost use Rattle.session_records.specs.Slots.{end, room as room_of, rooms_of, told_from, nowhere, placed, total};
ghost use Rattle.session_records.specs.Slots.{record_slot, slot_for, cell_in, told_in, kept_at, kept_in};

use crate::{END, LONGEST, Slot};
use answer_common::content::{NAMES, Rule, rule_for};
use slices::{byte, lay, part};

// The most bytes that a value may have.
fn room(name: usize) -> usize
    ensures { result ≡ room_of (rule_for name) }
{
    match rule_for(name) {
        Rule::Sizes(_, most) => most,
        Rule::Entries => LONGEST,
        Rule::Number => 10,
        Rule::Date => 3,
        Rule::Verification => LONGEST,
        Rule::Anything => LONGEST,
    }
}

fn slot_in(names: &[usize], tag: usize) -> Slot
    requires { told_from + total (rooms_of names.now) ≤ end }
    ensures { result ≡ beside nowhere tag (placed told_from (rooms_of names.now)) }
{
    let mut at = 15;
    for name in names {
        let size = room(*name) + 1;
        if *name == tag {
            return Slot { at, size };
        }
        at += size;
    }
    Slot { at: END, size: 0 }
}

fn record_slot(tag: usize) -> Slot
    ensures { (result ≡ record_slot tag) × (result.at + result.size ≤ end) × (result.size ≤ longest + 1) }
{
    let names = NAMES;
    slot_in(&names, tag)
}

// The slots of what the session itself comes to (TVR, TSI, response code, profile), and those of the records.
fn slot_of(tag: usize) -> Slot
    ensures { (result ≡ slot_for tag) × (result.at + result.size ≤ end) × (result.size ≤ longest + 1) }
{
    match tag {
        0x95 => Slot { at: 0, size: 6 },
        0x9B => Slot { at: 6, size: 3 },
        0x8A => Slot { at: 9, size: 3 },
        0x82 => Slot { at: 12, size: 3 },
        _ => record_slot(tag),
    }
}

fn cell(d: &[u8], tag: usize) -> &[u8]
    ensures { result.now ≡ cell_in d.now (slot_for tag) }
{
    let slot = slot_of(tag);
    part(d, slot.at, slot.size)
}

// Whether the name was told.
pub fn has(d: &[u8], tag: usize) -> bool
    ensures { result ≡ is_some (told_in d.now tag) }
{
    byte(cell(d, tag), 0) != 0
}

// Its value, as a part of the bytes lent; nothing where it was not told.
pub fn value(d: &[u8], tag: usize) -> &[u8]
    ensures { result.now ≡ get_or (told_in d.now tag) [] }
{
    let c = cell(d, tag);
    let n = byte(c, 0);
    if n == 0 {
        return part(c, 0, 0);
    }
    part(c, 1, n - 1)
}

// A value kept in a slot; one that has no room there changes nothing.
fn keep_at(d: &mut [u8], slot: Slot, v: &[u8])
    requires { (slot.at + slot.size ≤ end) × (slot.size ≤ longest + 1) }
    ensures { d.new ≡ kept_at slot v.now d.old }
{
    let at = slot.at;
    let size = slot.size;
    if v.len() < size {
        let head = [(v.len() + 1) as u8];
        lay(d, at, &head);
        lay(d, at + 1, v);
    }
}

// A value kept in its name's slot; a name without a slot changes nothing.
pub fn keep(d: &mut [u8], tag: usize, v: &[u8])
    ensures { d.new ≡ kept_in tag v.now d.old }
{
    keep_at(d, slot_of(tag), v);
}
