// One line: a call of the kernel, its entries on the tape, and its reply printed.
use crate::line::{Fault, asked, kind_of};
use crate::stop::Stop;
use crate::store::store;
use commands::write::LONGEST;
use kernel::{Session, Step};
use kernel_record::{has_room, record};
use numbers::{ANSWER, HOST, RESULTS, START};
use session_phase::{Reply, awaits};
use session_state::result::decision;
use slices::part;
use std::fs::OpenFile;
use std::io;
use std::io::Write;
use tape_write::Writer;
use text_hex::unhex;
use text_input::{Line, read_line};
use text_lines::after_word;
use text_print::{bytes, text};

// A session, and the writer of its tape.
#[derive(Clone, Copy)]
pub struct Played {
    pub session: Session,
    pub writer: Writer,
}

// Reads a line into the lent buffer and answers it. What is played then; none where there is no next line: at the end of the input, and
// where a line or a block was not written, of which standard error says why.
pub fn next<F: Write + OpenFile>(
    rt: &(impl Input + Print + Eprint),
    played: Played,
    file: &mut Option<F>,
    line: &mut [u8],
    tape: &mut [u8],
) -> Option<Played> {
    match read_line(rt, line) {
        Line::Whole(n) => answer(rt, played, file, part(line, 0, n), tape),
        Line::Long => told(rt, too_long(rt, played)),
        Line::End => None,
    }
}

// Answers a line, with the same result.
pub fn answer<F: Write + OpenFile>(
    rt: &(impl Print + Eprint),
    played: Played,
    file: &mut Option<F>,
    line: &[u8],
    tape: &mut [u8],
) -> Option<Played> {
    told(rt, answered(rt, played, file, line, tape))
}

fn told(rt: &impl Eprint, played: Result<Played, Stop>) -> Option<Played> {
    match played {
        Ok(played) => Some(played),
        Err(stop) => {
            stop.tell(rt);
            None
        }
    }
}

fn too_long(rt: &impl Print, played: Played) -> Result<Played, Stop> {
    text(rt, b"ERROR line too long\n")?;
    Ok(played)
}

fn answered<F: Write + OpenFile>(
    rt: &impl Print,
    played: Played,
    file: &mut Option<F>,
    line: &[u8],
    tape: &mut [u8],
) -> Result<Played, Stop> {
    let rest = after_word(line);
    match asked(kind_of(line), rest) {
        Ok(kind) => call(rt, played, file, kind, rest, tape),
        Err(fault) => {
            text(rt, told_of(fault))?;
            Ok(played)
        }
    }
}

fn told_of(fault: Fault) -> &'static [u8] {
    match fault {
        Fault::Unknown => b"ERROR unknown word\n",
        Fault::TextAfter => b"ERROR text after SILENCE\n",
        Fault::NoDigits => b"ERROR not hexadecimal\n",
        Fault::Odd => b"ERROR odd number of digits\n",
    }
}

fn call<F: Write + OpenFile>(
    rt: &impl Print,
    played: Played,
    file: &mut Option<F>,
    kind: u8,
    digits: &[u8],
    tape: &mut [u8],
) -> Result<Played, Stop> {
    let mut payload = [0u8; 4096];
    let n = unhex(digits, &mut payload);
    if !is_room(played, tape) {
        return Err(Stop::Full);
    }
    play(rt, played, file, kind, &payload[..n], tape)
}

// Room for all that a call can lead to, so that no session gets ahead of its tape. One that is over leads to no block.
fn is_room(played: Played, tape: &[u8]) -> bool {
    has_room(played.writer, tape) || awaits(played.session.state.waiting) == 0
}

// The reply is printed once its entries are stored.
fn play<F: Write + OpenFile>(
    rt: &impl Print,
    played: Played,
    file: &mut Option<F>,
    kind: u8,
    payload: &[u8],
    tape: &mut [u8],
) -> Result<Played, Stop> {
    let mut command = [0u8; LONGEST];
    let step = stepped(played.session, kind, payload, &mut command);
    let session = step.session;
    let reply = step.reply;
    let before = played.writer;
    let kept = record(before, kind, payload, reply, &command, session, tape);
    store(file, tape, before.used, kept)?;
    print_reply(rt, session, reply, &command)?;
    Ok(Played {
        session,
        writer: kept.writer,
    })
}

fn stepped(s: Session, kind: u8, payload: &[u8], command: &mut [u8]) -> Step {
    match kind {
        START => s.start(payload, command),
        ANSWER => s.answer(payload, command),
        HOST => s.host(payload, command),
        RESULTS => s.results(payload, command),
        _ => s.silence(command),
    }
}

fn print_reply(rt: &impl Print, s: Session, reply: Reply, command: &[u8]) -> io::Result<()> {
    match reply {
        Reply::Command(n) => {
            text(rt, b"COMMAND ")?;
            bytes(rt, part(command, 0, n))?;
        }
        Reply::Due(kind) => text_kinds::print_due(rt, kind, s.count_due())?,
        Reply::Decided => {
            text(rt, b"DECISION ")?;
            bytes(rt, &decision(s.state))?;
        }
        // in one write
        Reply::Closed => return text(rt, b"CLOSED\n"),
        Reply::Refused(n) => print!(rt; "REFUSED {n}")?,
    }
    text(rt, b"\n")
}
