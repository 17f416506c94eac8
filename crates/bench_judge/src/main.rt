// Judges the tapes on standard input, each behind its length in four bytes, big-endian, and prints a line for each.
#![tactic(auto)]

use judge::judge;
use slices::part;
use std::io;
use text_input::read_full;
use verdict_line::{LONGEST, line};

// At most so many tapes are judged: nothing says that the input ends.
const MOST: usize = 100000;

// More than the longest tape.
const ROOM: usize = 530000;

fn main(rt: HostRuntime) -> io::Result<()> {
    let mut tape = [0u8; ROOM];
    tell_all(&rt, &mut tape)
}

fn tell_all(rt: &(impl Input + Print), tape: &mut [u8; ROOM]) -> io::Result<()> {
    for _ in 0..MOST {
        let Some(n) = size(rt) else {
            return Ok(());
        };
        tell(rt, tape, n)?;
    }
    Ok(())
}

// The length of the next tape; none where the input has ended.
fn size(rt: &impl Input) -> Option<usize> {
    let mut head = [0u8; 4];
    if read_full(rt, &mut head) < 4 {
        return None;
    }
    Some(u32::from_be_bytes(head) as usize)
}

// Reads a tape of so many bytes, or as many as there is room for, and tells its verdict.
fn tell(rt: &(impl Input + Print), buf: &mut [u8], n: usize) -> io::Result<()> {
    let most = n.min(buf.len());
    let got = read_full(rt, &mut buf[..most]);
    let mut out = [0u8; LONGEST];
    let size = line(judge(part(buf, 0, got)), &mut out);
    rt.write_all(part(&out, 0, size))
}
