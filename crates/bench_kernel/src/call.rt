// One call, and its reply printed.
ghost use Rattle.std.specs.Prelude.{◌≤◌};

use kernel::{Session, Step};
use session_phase::Reply;
use session_state::result::decision;
use slices::part;
use std::io;
use text_hex::unhex;

// The longest payload, and the most bytes that are lent.
const MOST: usize = 4096;

pub fn play(
    rt: &impl Print,
    s: Session,
    event: Option<u8>,
    word: &[u8],
    room: usize,
) -> io::Result<Session> {
    let mut payload = [0u8; MOST];
    let n = unhex(word, &mut payload);
    play_in(rt, s, event, &payload[..n], room.min(MOST))
}

// The buffer shows where it was touched behind the command.
fn play_in(
    rt: &impl Print,
    s: Session,
    event: Option<u8>,
    payload: &[u8],
    room: usize,
) -> io::Result<Session>
    requires { room ≤ 4096 }
{
    let mut buf = [text_print::UNTOUCHED; MOST];
    let step = stepped(s, event, payload, &mut buf[..room]);
    let session = step.session;
    let reply = step.reply;
    let written = print_reply(rt, session, reply, &buf)?;
    text_print::touched(rt, &buf, written)?;
    text_print::text(rt, b"\n")?;
    Ok(session)
}

// The fourth letter tells the event; any other is silence.
fn stepped(s: Session, event: Option<u8>, payload: &[u8], command: &mut [u8]) -> Step {
    match event {
        Some(b'R') => s.start(payload, command),
        Some(b'W') => s.answer(payload, command),
        Some(b'T') => s.host(payload, command),
        Some(b'U') => s.results(payload, command),
        _ => s.silence(command),
    }
}

// Prints the reply, and answers how many bytes of the buffer are the command.
fn print_reply(rt: &impl Print, s: Session, reply: Reply, buf: &[u8]) -> io::Result<usize> {
    match reply {
        Reply::Command(n) => {
            text_print::text(rt, b"COMMAND ")?;
            text_print::bytes(rt, part(buf, 0, n))?;
            Ok(n)
        }
        Reply::Due(kind) => {
            text_kinds::print_due(rt, kind, s.count_due())?;
            Ok(0)
        }
        Reply::Decided => {
            text_print::text(rt, b"DECISION ")?;
            text_print::bytes(rt, &decision(s.state))?;
            Ok(0)
        }
        Reply::Closed => {
            text_print::text(rt, b"CLOSED")?;
            Ok(0)
        }
        Reply::Refused(n) => {
            text_print::text(rt, b"REFUSED ")?;
            text_print::number(rt, n)?;
            Ok(0)
        }
    }
}
