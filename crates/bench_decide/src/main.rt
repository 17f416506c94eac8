// Selections at random, for comparison with an outside tool. Each line of standard input is the first 40 bytes of a START in
// hexadecimal; each line of standard output has the numbers read from it, and 1 where it is selected, else 0.
#![tactic(auto)]

ghost use Rattle.std.specs.Prelude.{◌<◌};

use start_fields::fields;
use std::io;
use text_input::read_full;

// The most lines that are answered.
const MOST: u64 = 100000;

// A digit from 0 to 9 or from a to f; any other byte is 0.
fn digit(c: u8) -> u8
    ensures { result < 16 }
{
    match c {
        b'0'..=b'9' => c - b'0',
        b'a'..=b'f' => c - b'a' + 10,
        _ => 0,
    }
}

fn decoded(line: [u8; 81]) -> [u8; 40] {
    let mut start = [0u8; 40];
    for (i, byte) in start.iter_mut().enumerate() {
        *byte = digit(line[2 * i]) * 16 + digit(line[2 * i + 1]);
    }
    start
}

fn print_number(rt: &impl Print, n: u64) -> io::Result<()> {
    print!(rt; "{n} ")
}

fn print_line(rt: &impl Print, start: &[u8]) -> io::Result<()> {
    print_number(rt, fields::random(start) as u64)?;
    print_number(rt, fields::target(start) as u64)?;
    print_number(rt, fields::maximum(start) as u64)?;
    print_number(rt, fields::amount(start))?;
    print_number(rt, fields::floor_limit(start))?;
    print_number(rt, fields::threshold(start))?;
    if decide_tvr::selection::selected(start) {
        rt.write_all(b"1\n")
    } else {
        rt.write_all(b"0\n")
    }
}

// One line, and whether there was one.
fn answer_one(rt: &(impl Input + Print)) -> io::Result<bool> {
    let mut line = [0u8; 81];
    if read_full(rt, &mut line) < 81 {
        return Ok(false);
    }
    let start = decoded(line);
    print_line(rt, &start)?;
    Ok(true)
}

fn main(rt: HostRuntime) -> io::Result<()> {
    for _ in 0..MOST {
        if !answer_one(&rt)? {
            break;
        }
    }
    Ok(())
}
