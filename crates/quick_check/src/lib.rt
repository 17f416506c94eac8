// What makes a whole tape unreadable, of one tape and of many: its length first, then block by block up to the first bad one.
#![tactic(auto)]

mod behind;
mod block;
mod register;
mod rows;

ghost use Rattle.std.specs.Prelude.{◌≡◌, set};
ghost use Rattle.tape_read.specs.Tapes.{read_from};
ghost use Rattle.tape_feed.specs.Feeding.{damaged};
ghost use Rattle.quick_check.specs.Damages.{damage_said, damage_in, length_damage, end_of, places_told, codes_told};

use behind::BEHIND;
use block::code;
use numbers::{CODE_LONG, CODE_TORN};
use register::Stored;
use rows::ROWS;
use tape_feed::Damage;
use tape_read::{BLOCK, TAPE, block_at, session};

// The damage of one tape: of the only one there is. Its length is looked at before anything is laid out.
#[tactic(auto, using(crate::proofs::Lengths::by_length))]
pub fn damage(tape: &[u8]) -> Damage
    ensures { result ≡ damage_in tape.now }
{
    let why = of_length(tape);
    if why.code != 0 {
        return why;
    }
    let ends = [tape.len()];
    let mut places = [0usize; 1];
    let mut codes = [0usize; 1];
    damages(tape, &ends, &mut places, &mut codes);
    at(places[0], codes[0])
}

// The damage of each of many tapes that stand one behind the other, by the place where each ends: its place and its code at its index, as
// far as the buffers go.
pub fn damages(bytes: &[u8], ends: &[usize], places: &mut [usize], codes: &mut [usize])
    ensures { (places.new ≡ places_told bytes.now ends.now places.old)
        × (codes.new ≡ codes_told bytes.now ends.now codes.old) }
{
    // Laid out once and lent: a constant is copied wherever it is named.
    let rows = ROWS;
    let behind = BEHIND;
    each(
        bytes,
        ends,
        places,
        codes,
        Stored {
            rows: &rows,
            behind: &behind,
        },
    );
}

#[tactic(auto, using(crate::proofs::Many::tape_ends))]
fn each(bytes: &[u8], ends: &[usize], places: &mut [usize], codes: &mut [usize], stored: Stored<'_>)
    ensures { (places.new ≡ places_told bytes.now ends.now places.old)
        × (codes.new ≡ codes_told bytes.now ends.now codes.old) }
{
    let mut from = 0;
    for (i, end) in ends.iter().enumerate() {
        let to = end_of(bytes.len(), from, *end);
        let d = of_tape(&bytes[from..to], stored);
        store(places, i, d.place);
        store(codes, i, d.code);
        from = to;
    }
}

// Where a tape ends that begins at one place and is said to end at another.
#[tactic(auto, unfolding(crate::specs::Damages::end_of, slices::specs::Choice::pick))]
fn end_of(size: usize, from: usize, to: usize) -> usize
    ensures { result ≡ end_of size from to }
{
    if to < from {
        return from;
    }
    if size < to {
        return from;
    }
    to
}

// A number at an index; past the end nothing changes.
#[tactic(auto, using(crate::proofs::Many::past_the_end))]
fn store(out: &mut [usize], i: usize, x: usize)
    ensures { out.new ≡ set out.old i x }
{
    if i < out.len() {
        out[i] = x;
    }
}

fn at(place: usize, code: usize) -> Damage
    ensures { result ≡ damaged place code }
{
    Damage { place, code }
}

// What a tape's length speaks against: code 1 or 2; code 0 where its blocks decide.
#[tactic(auto, unfolding(crate::specs::Damages::length_damage, slices::specs::Choice::pick))]
fn of_length(tape: &[u8]) -> Damage
    ensures { result ≡ length_damage tape.now }
{
    if TAPE < tape.len() {
        return at(0, CODE_LONG);
    }
    if tape.len() % BLOCK != 0 {
        return at(tape.len() / BLOCK, CODE_TORN);
    }
    at(0, 0)
}

#[tactic(auto, using(crate::proofs::Lengths::by_its_length), unfolding(tape_read::specs::Tapes::session_of))]
fn of_tape(tape: &[u8], stored: Stored<'_>) -> Damage
    ensures { result ≡ damage_in tape.now }
{
    let why = of_length(tape);
    if why.code != 0 {
        return why;
    }
    first_bad(tape, session(block_at(tape, 0)), stored)
}

// The first bad block, if there is one; those behind it are not read.
#[tactic(auto, using(crate::proofs::Saying::each_block))]
fn first_bad(tape: &[u8], due: u32, stored: Stored<'_>) -> Damage
    ensures { result ≡ damage_said (read_from 0 due tape.now) }
{
    for k in 0..tape.len() / BLOCK {
        let why = code(&tape[k * BLOCK..(k + 1) * BLOCK], k, due, stored);
        if why != 0 {
            return at(k, why as usize);
        }
    }
    at(0, 0)
}
