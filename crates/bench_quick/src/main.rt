// What makes tapes unreadable that other programs made, and what the plain judge and the quick one say of them. Standard input has the places
// where the tapes end, four bytes each, big-endian, and then the tapes, one behind the other. For each there is a line with place and code
// (code 0: it reads as entries): first of each tape by itself, then of all of them at once. Behind these stand the verdicts, two lines for
// each tape: the plain judge's and the quick one's. A place that is left over is 0, and makes an empty tape.
#![tactic(auto)]

use judge::judge;
use quick_check::{damage, damages};
use slices::part;
use std::io;
use text_input::read_full;
use verdict::Finding;
use verdict_line::LONGEST;

const TAPES: usize = 160;

const HEAD: usize = 640;

const ROOM: usize = 1600000;

fn main(rt: HostRuntime) -> io::Result<()> {
    let mut head = [0u8; HEAD];
    let mut bytes = [0u8; ROOM];
    tell(&rt, &mut head, &mut bytes)
}

fn tell(
    rt: &(impl Input + Print),
    head: &mut [u8; HEAD],
    bytes: &mut [u8; ROOM],
) -> io::Result<()> {
    read_full(rt, head);
    let got = read_full(rt, bytes);
    let ends = read_ends(head);
    let tapes = part(bytes, 0, got);
    each_tape(tapes, &ends, |tape| alone(rt, tape))?;
    together(rt, tapes, &ends)?;
    each_tape(tapes, &ends, |tape| both(rt, tape))
}

fn read_ends(head: &[u8; HEAD]) -> [usize; TAPES] {
    let mut ends = [0usize; TAPES];
    for (end, s) in ends.iter_mut().zip(head.chunks_exact(4)) {
        *end = u32::from_be_bytes([s[0], s[1], s[2], s[3]]) as usize;
    }
    ends
}

// Takes a step with each tape by itself. One that is said to end before it begins is empty.
fn each_tape<F: FnMut(&[u8]) -> io::Result<()>>(
    tapes: &[u8],
    ends: &[usize],
    mut step: F,
) -> io::Result<()>
    requires { F.IsAlwaysCallable step }
{
    let mut from = 0;
    for end in ends {
        let to = from.max(*end);
        step(part(tapes, from, to - from))?;
        from = to;
    }
    Ok(())
}

fn alone(rt: &impl Print, tape: &[u8]) -> io::Result<()> {
    let d = damage(tape);
    line(rt, d.place, d.code)
}

fn together(rt: &impl Print, tapes: &[u8], ends: &[usize]) -> io::Result<()> {
    let mut places = [0usize; TAPES];
    let mut codes = [0usize; TAPES];
    damages(tapes, ends, &mut places, &mut codes);
    lines(rt, &places, &codes)
}

fn lines(rt: &impl Print, places: &[usize; TAPES], codes: &[usize; TAPES]) -> io::Result<()> {
    for (place, code) in places.iter().zip(codes) {
        line(rt, *place, *code)?;
    }
    Ok(())
}

fn both(rt: &impl Print, tape: &[u8]) -> io::Result<()> {
    say(rt, judge(tape))?;
    say(rt, quick_judge::judge(tape))
}

fn say(rt: &impl Print, found: Finding) -> io::Result<()> {
    let mut out = [0u8; LONGEST];
    let n = verdict_line::line(found, &mut out);
    rt.write_all(part(&out, 0, n))
}

fn line(rt: &impl Print, place: usize, code: usize) -> io::Result<()> {
    println!(rt; "{place} {code}")
}
