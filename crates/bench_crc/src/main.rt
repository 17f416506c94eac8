// The check of patterns of 0 to 600 bytes, one line for each: name, length, check. The file that expected.py makes with
// another CRC-32 is what must come out.
#![tactic(auto)]

use std::io;

const LONGEST: usize = 600;

// In the run that takes a pattern in two parts: the first part has fewer bytes than this.
const PARTS: usize = 7;

// Where the register starts, and the last value's complement.
const START: u32 = 0xFFFF_FFFF;

// The runs. In the last two the mixed pattern is checked as a block, and in two parts.
#[derive(Clone, Copy)]
enum Run {
    Zeros,
    Ones,
    Count,
    Mixed,
    Block,
    Cut,
}

fn main(rt: HostRuntime) -> io::Result<()> {
    line(&rt, b"digits", 9, tape_crc::whole(b"123456789"))?;
    all_lengths(&rt, b"zeros", Run::Zeros)?;
    all_lengths(&rt, b"ones", Run::Ones)?;
    all_lengths(&rt, b"count", Run::Count)?;
    all_lengths(&rt, b"mixed", Run::Mixed)?;
    all_lengths(&rt, b"block", Run::Block)?;
    all_lengths(&rt, b"cut", Run::Cut)
}

fn all_lengths(rt: &impl Print, name: &[u8], run: Run) -> io::Result<()> {
    let mut buf = [0u8; LONGEST];
    fill(&mut buf, run);
    for n in 0..=LONGEST {
        line(rt, name, n, check(run, &buf[..n]))?;
    }
    Ok(())
}

fn fill(buf: &mut [u8], run: Run) {
    for (i, b) in buf.iter_mut().enumerate() {
        *b = pattern(run, i);
    }
}

fn pattern(run: Run, i: usize) -> u8 {
    match run {
        Run::Zeros => 0,
        Run::Ones => 255,
        Run::Count => (i % 256) as u8,
        Run::Mixed | Run::Block | Run::Cut => {
            ((i % 256 * 167 + i / 256 % 256 * 59 + 13) % 256) as u8
        }
    }
}

fn check(run: Run, s: &[u8]) -> u32 {
    match run {
        Run::Block => tape_crc::of_block(s),
        Run::Cut => in_two_parts(s),
        Run::Zeros | Run::Ones | Run::Count | Run::Mixed => tape_crc::whole(s),
    }
}

// The second part starts at any place from 0 to 6, and at another register each time.
fn in_two_parts(s: &[u8]) -> u32 {
    let n = s.len() % PARTS;
    let r = tape_crc::running(START, &s[..n]);
    tape_crc::running(r, &s[n..]) ^ START
}

fn line(rt: &impl Print, name: &[u8], n: usize, check: u32) -> io::Result<()> {
    rt.write_all(name)?;
    println!(rt; " {n} {check:08x}")
}
