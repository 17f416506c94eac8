// How many entries of an object list are filled with zeros for want of a value.
ghost use Rattle.std.specs.Prelude.{◌≡◌, ◌≤◌, true};
ghost use Rattle.slices.specs.Tests.{is_some};
ghost use Rattle.start_fields.specs.Reading.{reading_of};
ghost use Rattle.dol_wanted.specs.Wanted.{entries_of, fillable};
ghost use Rattle.session_records.specs.Slots.{told_in};
ghost use Rattle.dol_values.specs.Known.{value_for, supplied};
ghost use Rattle.tlv_head.specs.Head.{tag_of};
ghost use Rattle.dol_fill.specs.Filled.{missing as missing_of, missing_by, unsupplied as unsupplied_in, summed};

use crate::Sources;
use answer_common::content::Format;
use dol_values::supply::{format_of, own_field};
use dol_wanted::is_fillable;
use session_records::slots::has;
use start_fields::fields::bytes;
use std::num::wrapping_add_usize;
use tlv_head::tag::{tag_of, tag_size};

// Whether a value is there for a tag.
fn is_there(from: Sources, tag: usize) -> bool
    ensures { result ≡ is_some (value_for (reading_of from.entry.start.now) (told_in from.entry.known.now) tag) }
{
    match own_field(tag) {
        Some(field) => bytes(from.start, field).len() != 0,
        None => has(from.known, tag),
    }
}

// Whether the terminal supplies a tag: a value is there, and lists know its format.
fn is_supplied(from: Sources, tag: usize) -> bool
    ensures { result ≡ is_some (supplied (reading_of from.entry.start.now) (told_in from.entry.known.now) tag) }
{
    match format_of(tag) {
        Format::Numeric => is_there(from, tag),
        Format::CardNumber => is_there(from, tag),
        Format::Other => is_there(from, tag),
        Format::Unknown => false,
    }
}

// 1 where the entry at the front of a list is not supplied, else 0.
#[tactic(auto, unfolding(crate::specs::Filled::missing, slices::specs::Choice::pick))]
fn missing(list: &[u8], from: Sources) -> usize
    ensures { (result ≡ missing_of (reading_of from.entry.start.now) (told_in from.entry.known.now) (tag_of list.now))
        × (result ≤ 1) }
{
    if is_supplied(from, tag_of(list)) {
        0
    } else {
        1
    }
}

// All entries of a list that can be filled.
#[tactic(auto, using(crate::proofs::Turn::inside))]
fn missing_in(list: &[u8], from: Sources) -> usize
    requires { fillable list.now ≡ true }
    ensures { result ≡ missing_by (reading_of from.entry.start.now) (told_in from.entry.known.now) (entries_of list.now) }
{
    let mut count = 0;
    let mut rest = list;
    while !rest.is_empty() {
        count += missing(rest, from);
        let n = tag_size(rest) + 1;
        rest = &rest[n..];
    }
    count
}

// A list that cannot be filled has none.
#[tactic(auto, unfolding(crate::specs::Filled::unsupplied, slices::specs::Choice::pick))]
pub fn unsupplied(list: &[u8], from: Sources) -> usize
    ensures { result ≡ unsupplied_in (reading_of from.entry.start.now) (told_in from.entry.known.now) list.now }
{
    if is_fillable(list) {
        missing_in(list, from)
    } else {
        0
    }
}

// The sum over the lists filled so far, with those of one list more.
#[tactic(auto, unfolding(crate::specs::Filled::summed))]
pub fn sum(zeros: usize, more: usize) -> usize
    ensures { result ≡ summed zeros more }
{
    wrapping_add_usize(zeros, more)
}
