// Many tapes, by name, a line each. In:
//
//     JUDGE name                        a file's name, to the end of the line: judged by the quick judge
//     PLAIN name                        the same, by the plain judge
//     DUE name                          by the plain judge, and what was due at each entry
//
// Out, at once for each line, before the next is read:
//
//     DUE index KIND bytes              what was due at an entry, as far as the tape can be followed: START, COMMAND with its bytes,
//                                       ANSWER, RESULTS with their number, HOST, DECISION with its bytes, or NOTHING. The last of these
//                                       is that of the verdict's place. An unreadable tape has none
//     verdict place code zeros name     what `judge_tape` says of the file's bytes, and the name as it came
//     ERROR why name                    no verdict: `opening` or `reading` the file failed, or it was `changed` between the two readings
//                                       that DUE needs
//     ERROR word line                   the line asks for nothing
//     ERROR length                      the line is longer than any name
//
// For JUDGE a tape is held in memory whole, for the others a single block of it. Where a line cannot be written, standard error says so, and nothing more is read.
#![tactic(auto)]

mod follow;
mod say;
mod whole;

use follow::follow_file;
use judge_reading::judge_file;
use say::say;
use slices::part;
use std::io;
use std::rt::Files;
use text_input::{Line, open, read_line};
use text_lines::{after_word, line_end};
use text_print::fail;
use verdict::Finding;
use verdict_line::line;
use whole::{ROOM, judge_whole};

// The word, a space, and the longest name that a file can have.
const LONGEST: usize = 4102;

// More lines than there can be: nothing says that the input ends.
const MOST: usize = 0x7FFF_FFFF_FFFF_FFFF;

// Why there is no verdict.
#[derive(Clone, Copy)]
enum Failure {
    Opening,
    Reading,
    Changed,
}

fn main(rt: HostRuntime) {
    let mut asked = [0u8; LONGEST];
    let mut tape = [0u8; ROOM];
    if let Err(e) = answer_lines(&rt, &mut asked, &mut tape) {
        fail(&rt, "lab_tapes: a line could not be written", &e);
    }
}

// An error, here and below, is one of writing.
fn answer_lines(
    rt: &(impl Input + Print + Files),
    asked: &mut [u8; LONGEST],
    tape: &mut [u8; ROOM],
) -> io::Result<()> {
    for _ in 0..MOST {
        match read_line(rt, asked) {
            Line::Whole(n) => answer(rt, part(asked, 0, n), tape)?,
            Line::Long => say(rt, b"ERROR length", b"")?,
            Line::End => return Ok(()),
        }
    }
    Ok(())
}

fn answer(rt: &(impl Print + Files), asked: &[u8], tape: &mut [u8]) -> io::Result<()> {
    let name = after_word(asked);
    if asked.starts_with(b"JUDGE ") {
        return tell(rt, judged_whole(rt, name, tape), name);
    }
    if asked.starts_with(b"PLAIN ") {
        return tell(rt, judged(rt, name), name);
    }
    if asked.starts_with(b"DUE ") {
        return tell(rt, followed(rt, name)?, name);
    }
    say(rt, b"ERROR word ", asked)
}

fn judged_whole(rt: &impl Files, name: &[u8], tape: &mut [u8]) -> Result<Finding, Failure> {
    let mut file = open(rt, name).map_err(|_| Failure::Opening)?;
    judge_whole(&mut file, tape).map_err(|_| Failure::Reading)
}

fn judged(rt: &impl Files, name: &[u8]) -> Result<Finding, Failure> {
    let mut file = open(rt, name).map_err(|_| Failure::Opening)?;
    judge_file(&mut file).map_err(|_| Failure::Reading)
}

// A tape is judged before it is followed, since one that is unreadable is not.
fn followed(rt: &(impl Print + Files), name: &[u8]) -> io::Result<Result<Finding, Failure>> {
    match judged(rt, name) {
        Ok(found) if found.ruling.code == 0 => follow_again(rt, found, name),
        other => Ok(other),
    }
}

// The verdict of both readings; none where they are not of the same tape.
fn follow_again(
    rt: &(impl Print + Files),
    found: Finding,
    name: &[u8],
) -> io::Result<Result<Finding, Failure>> {
    let Ok(mut file) = open(rt, name) else {
        return Ok(Err(Failure::Opening));
    };
    let again = follow_file(rt, &mut file, found.ruling.place)?;
    Ok(match again {
        Some(again) if is_same(found, again) => Ok(again),
        Some(_) => Err(Failure::Changed),
        None => Err(Failure::Reading),
    })
}

fn is_same(found: Finding, again: Finding) -> bool {
    let mut one = [0u8; verdict_line::LONGEST];
    let mut other = [0u8; verdict_line::LONGEST];
    line(found, &mut one);
    line(again, &mut other);
    one == other
}

fn tell(rt: &impl Print, outcome: Result<Finding, Failure>, name: &[u8]) -> io::Result<()> {
    match outcome {
        Ok(found) => tell_verdict(rt, found, name),
        Err(Failure::Opening) => say(rt, b"ERROR opening ", name),
        Err(Failure::Reading) => say(rt, b"ERROR reading ", name),
        Err(Failure::Changed) => say(rt, b"ERROR changed ", name),
    }
}

// The judge's line, without its line feed, and the name.
fn tell_verdict(rt: &impl Print, found: Finding, name: &[u8]) -> io::Result<()> {
    let mut out = [0u8; verdict_line::LONGEST];
    line(found, &mut out);
    rt.write_all(part(&out, 0, line_end(&out, 0)))?;
    say(rt, b" ", name)
}
