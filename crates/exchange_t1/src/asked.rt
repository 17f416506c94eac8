// What a line asks, and what is wrong with one that asks nothing.
use slices::part;
use std::fmt;
use t1_block::What;
use t1_state::Role;
use text_hex::unhex;
use text_lines::{after_word, number, word_end};

// A line gives at most so many bytes.
pub const MOST: usize = 8192;

#[derive(Clone, Copy)]
pub enum Asked<'a> {
    Happens(Event<'a>),
    Test { most: u8, block: &'a [u8] },
    Cut(Cut<'a>),
}

// A message for an end that takes fields of so many bytes, from number 0 on or from 1.
#[derive(Clone, Copy)]
pub struct Cut<'a> {
    pub theirs: u8,
    pub second: bool,
    pub message: &'a [u8],
}

// What happens at an end: it begins, with the longest fields that the other end takes and that it takes itself; a block came; a message
// is to be sent; the first request; no block came in time; a card's request.
#[derive(Clone, Copy)]
pub enum Event<'a> {
    Begin { role: Role, theirs: u8, ours: u8 },
    Block(&'a [u8]),
    Send(&'a [u8]),
    Hello,
    Silence,
    Ask(What, u8),
}

#[derive(Clone, Copy)]
pub enum Error {
    Unknown,
    NotHex,
    Neither,
}

impl fmt::Display for Error {
    fn fmt<W: fmt::Write>(&self, f: &mut fmt::Formatter<W>) -> fmt::Result {
        f.write_str(match self {
            Error::Unknown => "unknown word",
            Error::NotHex => "not hexadecimal",
            Error::Neither => "neither IFS nor WTX",
        })
    }
}

// The bytes that the line gives stand in a lent buffer.
pub fn asked_by<'a>(line: &[u8], bytes: &'a mut [u8; MOST]) -> Result<Asked<'a>, Error> {
    let rest = after_word(line);
    let event = match word(line) {
        b"TERMINAL" => Event::Begin {
            role: Role::Terminal,
            theirs: small(rest),
            ours: 254,
        },
        b"CARD" => Event::Begin {
            role: Role::Card,
            theirs: small(rest),
            ours: small(after_word(rest)),
        },
        b"HELLO" => Event::Hello,
        b"SILENCE" => Event::Silence,
        b"ASK" => Event::Ask(what_of(rest)?, small(after_word(rest))),
        b"BLOCK" => Event::Block(unhexed(rest, bytes)?),
        b"SEND" => Event::Send(unhexed(rest, bytes)?),
        _ => return other(line, bytes),
    };
    Ok(Asked::Happens(event))
}

fn other<'a>(line: &[u8], bytes: &'a mut [u8; MOST]) -> Result<Asked<'a>, Error> {
    let rest = after_word(line);
    match word(line) {
        b"TEST" => Ok(Asked::Test {
            most: small(rest),
            block: unhexed(after_word(rest), bytes)?,
        }),
        b"CUT" => Ok(Asked::Cut(Cut {
            theirs: small(rest),
            second: 0 < number(after_word(rest)),
            message: unhexed(after_word(after_word(rest)), bytes)?,
        })),
        _ => Err(Error::Unknown),
    }
}

fn word(s: &[u8]) -> &[u8] {
    part(s, 0, word_end(s, 0))
}

fn what_of(rest: &[u8]) -> Result<What, Error> {
    match word(rest) {
        b"IFS" => Ok(What::Ifs),
        b"WTX" => Ok(What::Wtx),
        _ => Err(Error::Neither),
    }
}

fn unhexed<'a>(digits: &[u8], bytes: &'a mut [u8; MOST]) -> Result<&'a [u8], Error> {
    let n = unhex(digits, bytes);
    if digits.len() == 2 * n {
        Ok(part(bytes, 0, n))
    } else {
        Err(Error::NotHex)
    }
}

// A size or a value; beyond a byte it is taken as 255.
fn small(s: &[u8]) -> u8 {
    u8::try_from(number(s)).unwrap_or(255)
}
