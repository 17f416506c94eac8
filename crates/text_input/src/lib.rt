// What programs read. An argument. Standard input, line by line: no byte behind a line is read before the next line is asked for, so that
// a program can reply to each line before the next is there; a read that fails counts as the end of the input. A file, a buffer at a time.
// Of what is read no contract can speak.
#![tactic(auto)]

ghost use Rattle.std.specs.Prelude.{◌≤◌, length, IfOk};

use std::env::FillError;
use std::io::{ErrorKind, Read};
use std::rt::{Env, Files};
use std::{fs, io};

// A line of so many bytes, without its line feed; a line that has no room; or the input has ended. A last line needs no line
// feed.
#[derive(Clone, Copy)]
pub enum Line {
    Whole(usize),
    Long,
    End,
}

// No line counts on beyond this.
const MOST: usize = 0x7FFF_FFFF_FFFF_FFFF;

// Reads to the end of a line, and puts as much of it as there is room for at the start of a buffer.
pub fn read_line(rt: &impl Input, line: &mut [u8]) -> Line {
    let mut input = rt.reader();
    let room = line.len();
    for n in 0..MOST {
        match read_byte(&mut input) {
            Some(b'\n') => return line_of(n, room),
            Some(b) => keep(line, n, b),
            None => return last_of(n, room),
        }
    }
    Line::Long
}

fn keep(line: &mut [u8], n: usize, b: u8) {
    if n < line.len() {
        line[n] = b;
    }
}

fn line_of(n: usize, room: usize) -> Line {
    if room < n { Line::Long } else { Line::Whole(n) }
}

fn last_of(n: usize, room: usize) -> Line {
    if n == 0 { Line::End } else { line_of(n, room) }
}

// The next byte; none where the input has ended, or a read failed.
fn read_byte(input: &mut impl Read) -> Option<u8> {
    let mut one = [0u8; 1];
    match input.read(&mut one) {
        Ok(1) => Some(one[0]),
        _ => None,
    }
}

// The system's numbers for an argument that is not there, for one that is too long, and for one that is no text.
const MISSING: i32 = 22;

const LONG: i32 = 36;

const NO_TEXT: i32 = 84;

// An argument that is text, put at the start of a buffer.
pub fn argument<'a>(rt: &impl Env, at: usize, buf: &'a mut [u8]) -> io::Result<&'a str>
    ensures { IfOk result (λ text. length text.now ≤ length buf.old) }
{
    let n = rt.arg(at, buf).map_err(why_missing)?;
    str::from_utf8(&buf[..n]).map_err(|_| io::Error::from_raw_os_error(NO_TEXT))
}

fn why_missing(error: FillError) -> io::Error {
    io::Error::from_raw_os_error(match error {
        FillError::NotPresent => MISSING,
        FillError::TooLong => LONG,
    })
}

// The file of a name. A name that is no text names no file that can be opened.
pub fn open<R: Files>(rt: &R, name: &[u8]) -> io::Result<R::File> {
    match str::from_utf8(name) {
        Ok(name) => fs::open(rt, name),
        Err(_) => Err(io::Error::from(ErrorKind::InvalidFilename)),
    }
}

// Reads until the buffer is full, or the file has ended, and answers how many bytes that gave; an error is one of reading.
pub fn fill(file: &mut impl Read, buf: &mut [u8]) -> io::Result<usize>
    ensures { IfOk result (λ n. n ≤ length buf.new) }
{
    let mut n = 0;
    read_on(file, buf, &mut n)?;
    Ok(n)
}

// Reads standard input until the buffer is full, or the input has ended, and answers how many bytes that gave; a read that fails counts as
// the end.
pub fn read_full(rt: &impl Input, buf: &mut [u8]) -> usize
    ensures { result ≤ length buf.new }
{
    let mut n = 0;
    let _ = read_on(&mut rt.reader(), buf, &mut n);
    n
}

// Reads behind the first n bytes until the buffer is full, or the file has ended, or a read fails; n then counts all that were read.
fn read_on(file: &mut impl Read, buf: &mut [u8], n: &mut usize) -> io::Result<()>
    ensures { n.old ≤ length buf.old → n.new ≤ length buf.new }
{
    while *n < buf.len() {
        let more = file.read(&mut buf[*n..])?;
        if more == 0 {
            return Ok(());
        }
        *n += more;
    }
    Ok(())
}
