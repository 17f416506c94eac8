// The kernel over standard input and output, a line each way. In, with bytes in hexadecimal of either case:
//
//     START bytes      terminal data
//     ANSWER bytes     the card's answer, status bytes included
//     SILENCE          the card says nothing
//     HOST bytes       the issuer's reply
//     RESULTS bytes    the results of cardholder verification, a byte for each rule of the card's list
//
// No bytes are an empty payload.
//
// Out, at once for each line:
//
//     COMMAND bytes    the card's next command
//     HOST             the issuer's reply is due
//     RESULTS n        so many results of cardholder verification are due
//     DECISION bytes   the nine bytes of DECISION
//     CLOSED           the session was closed by silence
//     REFUSED n        the call was turned away
//     ERROR why        the line is none of these; nothing changed
//
// The first argument names a file for the tape, the second is the session number (0 where there is none). A file that is there is not
// touched, unless --over stands before its name. A block is on the disk before the line that it belongs to is said.
#![tactic(auto)]

mod streams;
mod tape;

ghost use Rattle.std.specs.Prelude.{◌≤◌};

use kernel::Session;
use playing::{Played, next};
use slices::part;
use std::env::FillError;
use std::fs::{File, OpenFile};
use std::io::Write;
use std::rt::Env;
use tape_read::TAPE;
use tape_write::Writer;
use text_lines::decimal::{NO_NUMBER, decimal};

// A line of the longest word and the longest payload: eight bytes, and the digits of 4,096.
const LONGEST: usize = 8200;

// More lines than there can be: nothing says that the input ends.
const MOST: usize = 0x7FFF_FFFF_FFFF_FFFF;

fn main(rt: HostRuntime) {
    if !streams::are_open(&rt, &rt.stderr()) {
        return;
    }
    let at = tape::name_at(&rt);
    if !is_there(&rt, at) {
        let mut none: Option<File> = None;
        play(&rt, &mut none, 0);
        return;
    }
    let number = number_asked(&rt, at + 1);
    if number == NO_NUMBER {
        let _ = rt.eprint("session number: not a number from 0 to 4294967295\n");
        return;
    }
    let mut file = tape::open(&rt, at);
    if file.is_some() {
        play(&rt, &mut file, number as u32);
    }
}

// Whether there is an argument at a place.
fn is_there(rt: &impl Env, at: usize) -> bool {
    let mut none = [0u8; 0];
    !matches!(rt.arg(at, &mut none), Err(FillError::NotPresent))
}

// The session number that was asked for; NO_NUMBER where it is none.
fn number_asked(rt: &impl Env, at: usize) -> usize
    ensures { result ≤ 0x100000000 }
{
    if !is_there(rt, at) {
        return 0;
    }
    let mut digits = [0u8; tape::ROOM];
    let n = rt.arg(at, &mut digits).unwrap_or(0);
    decimal(part(&digits, 0, n))
}

fn play<F: Write + OpenFile>(
    rt: &(impl Input + Print + Eprint),
    file: &mut Option<F>,
    number: u32,
) {
    let mut line = [0u8; LONGEST];
    let mut tape = [0u8; TAPE];
    play_lines(rt, file, number, &mut line, &mut tape);
}

fn play_lines<F: Write + OpenFile>(
    rt: &(impl Input + Print + Eprint),
    file: &mut Option<F>,
    number: u32,
    line: &mut [u8; LONGEST],
    tape: &mut [u8; TAPE],
) {
    let mut played = Played {
        session: Session::fresh(),
        writer: Writer::new(number),
    };
    for _ in 0..MOST {
        let Some(then) = next(rt, played, file, line, tape) else {
            return;
        };
        played = then;
    }
}
