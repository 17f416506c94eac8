// Replies and states, printed.
use apdu::ANSWER_MOST;
use slices::part;
use std::io;
use t1::Reply;
use t1_block::LONGEST;
use t1_state::{Phase, Role, State};

pub fn reply(
    rt: &impl Print,
    said: Reply,
    out: &[u8; LONGEST],
    message: &[u8; ANSWER_MOST],
) -> io::Result<()> {
    match said {
        Reply::Nothing => Ok(()),
        Reply::Send(n) => bytes(rt, "SEND", part(out, 0, n)),
        Reply::Took { send, inf } => {
            field(rt, inf)?;
            bytes(rt, "SEND", part(out, 0, send))
        }
        Reply::Whole { message: n, inf } => {
            field(rt, inf)?;
            bytes(rt, "MESSAGE", part(message, 0, n))
        }
        Reply::End(e) => println!(rt; "END {e}"),
        Reply::Refused(why) => println!(rt; "REFUSED {why}"),
    }
}

fn bytes(rt: &impl Print, word: &str, s: &[u8]) -> io::Result<()> {
    print!(rt; "{word} ")?;
    text_print::bytes(rt, s)?;
    println!(rt;)
}

pub fn field(rt: &impl Print, n: usize) -> io::Result<()> {
    let end = 3 + n % 256;
    println!(rt; "INF 3 {end}")
}

pub fn state(rt: &impl Print, s: &State) -> io::Result<()> {
    let phase = phase_name(s);
    let next = u8::from(s.numbers.next);
    let expected = u8::from(s.numbers.expected);
    let theirs = s.sizes.theirs;
    let ours = s.sizes.ours;
    println!(rt; "STATE {phase} {next} {expected} {theirs} {ours}")
}

fn phase_name(s: &State) -> &'static str {
    match (s.phase, s.role) {
        (Phase::Start, _) => "START",
        (Phase::Asking, Role::Terminal) => "HELLO",
        (Phase::Asking, Role::Card) => "ASK",
        (Phase::Due, Role::Terminal) => "IDLE",
        (Phase::Due, Role::Card) => "BUSY",
        (Phase::Sent, _) => if s.message.has_more() { "SEND" } else { "WAIT" },
        (Phase::Receiving, _) => if s.received == 0 { "LISTEN" } else { "RECV" },
        (Phase::Over, _) => "OVER",
    }
}
