// Plays scripts on the kernel as `play` does, each with a tape in a file, and reads the file back. A line of standard input at a time:
//
//     SESSION        a fresh session begins, and a file for its tape
//     START bytes    the calls, as in the scripts of samples/; the replies are printed
//     ANSWER bytes
//     HOST bytes
//     RESULTS bytes
//     SILENCE
//     JUDGE          the verdict of the file is printed
//     SAME name      whether the file holds the same bytes as the one of this name: `same`, `other`, or `unread`
#![tactic(auto)]

use judge_reading::judge_file;
use kernel::Session;
use playing::{Played, answer};
use slices::part;
use std::io::Read;
use std::rt::Files;
use std::{fs, io};
use tape_read::{BLOCK, TAPE};
use tape_write::Writer;
use text_input::{Line, fill, open, read_line};
use text_lines::{after_word, word_end};
use verdict::Finding;
use verdict_line::{LONGEST as LINE, line as line_of};

// The session number of the samples' tapes.
const NUMBER: u32 = 7;

// The file of the session's tape.
const STORED: &str = "stored.tape";

// A line of the longest word and the longest payload.
const LONGEST: usize = 8200;

// More lines than there can be, and more blocks than a tape can have: nothing says that the input ends, or a file.
const LINES: usize = 1_000_000;

const BLOCKS: usize = 10_000;

fn main(rt: HostRuntime) -> io::Result<()> {
    let mut line = [0u8; LONGEST];
    let mut tape = [0u8; TAPE];
    play_all(&rt, &mut line, &mut tape)
}

// A line that is too long ends the input.
fn play_all<R: Input + Print + Eprint + Files>(
    rt: &R,
    line: &mut [u8; LONGEST],
    tape: &mut [u8; TAPE],
) -> io::Result<()> {
    let mut file: Option<R::File> = None;
    let mut played = fresh();
    for _ in 0..LINES {
        let Line::Whole(n) = read_line(rt, line) else {
            return Ok(());
        };
        let Some(then) = after(rt, played, &mut file, part(line, 0, n), tape)? else {
            return Ok(());
        };
        played = then;
    }
    Ok(())
}

fn fresh() -> Played {
    Played {
        session: Session::fresh(),
        writer: Writer::new(NUMBER),
    }
}

// Any other line than SESSION, JUDGE and SAME is a call. None where there is no next line.
fn after<R: Print + Eprint + Files>(
    rt: &R,
    played: Played,
    file: &mut Option<R::File>,
    line: &[u8],
    tape: &mut [u8],
) -> io::Result<Option<Played>> {
    match part(line, 0, word_end(line, 0)) {
        b"SESSION" => {
            *file = None;
            *file = fs::create(rt, STORED).ok();
            Ok(Some(fresh()))
        }
        b"JUDGE" => {
            judged(rt)?;
            Ok(Some(played))
        }
        b"SAME" => {
            hold_against(rt, after_word(line))?;
            Ok(Some(played))
        }
        _ => Ok(answer(rt, played, file, line, tape)),
    }
}

fn judged(rt: &(impl Print + Files)) -> io::Result<()> {
    match judge_stored(rt) {
        Ok(found) => tell(rt, found),
        Err(_) => rt.write_all(b"unread\n"),
    }
}

fn judge_stored(rt: &impl Files) -> io::Result<Finding> {
    let mut stored = fs::open(rt, STORED)?;
    judge_file(&mut stored)
}

fn tell(rt: &impl Print, found: Finding) -> io::Result<()> {
    let mut out = [0u8; LINE];
    let n = line_of(found, &mut out);
    rt.write_all(part(&out, 0, n))
}

fn hold_against(rt: &(impl Print + Files), name: &[u8]) -> io::Result<()> {
    match is_held(rt, name) {
        Ok(Some(true)) => rt.write_all(b"same\n"),
        Ok(Some(false)) => rt.write_all(b"other\n"),
        Ok(None) => Ok(()),
        Err(_) => rt.write_all(b"unread\n"),
    }
}

// Whether the stored file holds the same bytes as the one of this name.
fn is_held(rt: &impl Files, name: &[u8]) -> io::Result<Option<bool>> {
    let mut stored = fs::open(rt, STORED)?;
    let mut other = open(rt, name)?;
    hold(&mut stored, &mut other)
}

// None where both go on after more blocks than a tape can have.
fn hold(stored: &mut impl Read, other: &mut impl Read) -> io::Result<Option<bool>> {
    let mut one = [0u8; BLOCK];
    let mut two = [0u8; BLOCK];
    for _ in 0..BLOCKS {
        let n = fill(stored, &mut one)?;
        let m = fill(other, &mut two)?;
        if one[..n] != two[..m] {
            return Ok(Some(false));
        }
        if n < BLOCK {
            return Ok(Some(true));
        }
    }
    Ok(None)
}
