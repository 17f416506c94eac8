// Plays sessions on the kernel, a line of standard input at a time, and prints the reply to each call. Bytes are in hexadecimal.
//
//     SESSION        a fresh session begins
//     ROOM n         from here on so many bytes are lent for the command, at most 4,096
//     START bytes    the calls: terminal data,
//     ANSWER bytes   the card's answer,
//     HOST bytes     the issuer's reply,
//     RESULTS bytes  the results of cardholder verification,
//     SILENCE        the card says nothing
//     ZEROS          how many list entries were filled with zeros so far is printed
#![tactic(auto)]

mod call;

use kernel::Session;
use slices::part;
use std::io;
use text_input::{Line, read_line};
use text_lines::{after_word, number};

// A line of the longest payload.
const LONGEST: usize = 8200;

// More lines than there can be: nothing says that the input ends.
const MOST: usize = 1_000_000;

fn main(rt: HostRuntime) -> io::Result<()> {
    let mut line = [0u8; LONGEST];
    play_all(&rt, &mut line)
}

fn play_all(rt: &(impl Input + Print), line: &mut [u8]) -> io::Result<()> {
    let mut session = Session::fresh();
    let mut room = 0;
    for _ in 0..MOST {
        match read_line(rt, line) {
            Line::Whole(n) => {
                let asked = part(line, 0, n);
                room = room_after(room, asked);
                session = session_after(rt, session, room, asked)?;
            }
            Line::Long => text_print::text(rt, b"too long\n")?,
            Line::End => return Ok(()),
        }
    }
    Ok(())
}

// The fourth letter tells the line.
fn room_after(room: usize, line: &[u8]) -> usize {
    match line.get(3) {
        Some(b'M') => number(after_word(line)),
        _ => room,
    }
}

fn session_after(rt: &impl Print, s: Session, room: usize, line: &[u8]) -> io::Result<Session> {
    match line.get(3) {
        Some(b'S') => Ok(Session::fresh()),
        Some(b'M') => Ok(s),
        Some(b'O') => tell_zeros(rt, s),
        event => call::play(rt, s, event.copied(), after_word(line), room),
    }
}

fn tell_zeros(rt: &impl Print, s: Session) -> io::Result<Session> {
    text_print::text(rt, b"ZEROS ")?;
    text_print::number(rt, s.filled_with_zeros())?;
    text_print::text(rt, b"\n")?;
    Ok(s)
}
