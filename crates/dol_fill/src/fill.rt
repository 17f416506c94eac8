// Filling an object list.
ghost use Rattle.std.specs.Prelude.{◌≡◌, ◌+◌, ◌≤◌, true, length};
ghost use Rattle.slices.specs.Choice.{unless_empty};
ghost use Rattle.slices.specs.Writing.{put, laid};
ghost use Rattle.start_fields.specs.Reading.{reading_of};
ghost use Rattle.dol_wanted.specs.Wanted.{size_at, fillable, total_of};
ghost use Rattle.session_records.specs.Slots.{told_in};
ghost use Rattle.dol_values.specs.Known.{with_format, supplied};
ghost use Rattle.dol_fill.specs.Filled.{entry_bytes, first_bytes, filled_list, filling};

use crate::Sources;
use answer_common::content::Format;
use dol_values::shape::shape;
use dol_values::supply::{format_of, own_field};
use dol_wanted::{MOST, size_at, total};
use session_records::slots::{has, value};
use slices::blank;
use start_fields::fields::bytes;
use tlv_head::tag::{tag_of, tag_size};

// A field of START in its entry's place, or zeros where START does not have it.
fn fill_own(part: &mut [u8], format: Format, v: &[u8])
    ensures { part.new
        ≡ entry_bytes (length part.old) (with_format format (unless_empty v.now)) }
{
    if v.len() == 0 {
        blank(part, 0);
    } else {
        shape(part, format, v);
    }
}

// One entry's place, filled with the value of its tag, or with zeros where there is none.
fn fill_entry(part: &mut [u8], from: Sources, tag: usize)
    ensures { part.new
        ≡ entry_bytes (length part.old) (supplied (reading_of from.entry.start.now) (told_in from.entry.known.now) tag) }
{
    let format = format_of(tag);
    match own_field(tag) {
        Some(field) => fill_own(part, format, bytes(from.start, field)),
        None => {
            if has(from.known, tag) {
                shape(part, format, value(from.known, tag));
            } else {
                blank(part, 0);
            }
        }
    }
}

// The entry at the front of a list, filled at its place of the buffer, which is lent on as a part.
fn fill_first(list: &[u8], from: Sources, buf: &mut [u8], p: usize)
    requires { p + size_at list.now ≤ length buf.old }
    ensures { buf.new
        ≡ put (first_bytes (reading_of from.entry.start.now) (told_in from.entry.known.now) list.now) p buf.old }
{
    let tag = tag_of(list);
    let end = p + size_at(list);
    fill_entry(&mut buf[p..end], from, tag);
}

// All entries of a list that can be filled, from a place on where they fit.
#[tactic(auto, using(crate::proofs::Turn::inside))]
fn fill_all(list: &[u8], from: Sources, buf: &mut [u8], at: usize)
    requires { (fillable list.now ≡ true) × (at + total_of list.now ≤ length buf.old) }
    ensures { buf.new
        ≡ put (filled_list (reading_of from.entry.start.now) (told_in from.entry.known.now) list.now) at buf.old }
{
    let mut rest = list;
    let mut p = at;
    while !rest.is_empty() {
        fill_first(rest, from, buf, p);
        p += size_at(rest);
        let n = tag_size(rest) + 1;
        rest = &rest[n..];
    }
}

// The list filled from a place of the buffer on. A list that cannot be filled, or that does not fit, changes nothing.
#[tactic(auto, using(crate::proofs::Laying::laying))]
pub fn fill(list: &[u8], from: Sources, buf: &mut [u8], at: usize)
    ensures { buf.new
        ≡ laid (filling (reading_of from.entry.start.now) (told_in from.entry.known.now) list.now) at buf.old }
{
    let n = total(list);
    if MOST < n {
        return;
    }
    if buf.len() < at {
        return;
    }
    if buf.len() - at < n {
        return;
    }
    fill_all(list, from, buf, at);
}
