// What is asked for.
use slices::part;
use std::rt::Env;
use text_lines::decimal::{NO_NUMBER, decimal};

// One entry for the tape with this number; many, each with its number on standard input; or what a book holds.
#[derive(Clone, Copy)]
pub enum Command {
    Add(u32),
    AddMany,
    Show(View),
}

// What is shown of a book.
#[derive(Clone, Copy)]
pub enum View {
    Counts,
    List,
    Check,
}

// The command that the arguments name, if they name one.
pub fn asked(rt: &impl Env) -> Option<Command> {
    let mut bytes = [0u8; 16];
    let n = rt.arg(2, &mut bytes).ok()?;
    match part(&bytes, 0, n) {
        b"add" => asked_to_add(rt),
        word => view_named(word).map(Command::Show),
    }
}

// What is to be shown behind many entries, if anything is.
pub fn asked_behind(rt: &impl Env) -> Option<View> {
    let mut bytes = [0u8; 16];
    let n = rt.arg(4, &mut bytes).ok()?;
    view_named(part(&bytes, 0, n))
}

// A dash for the number: the entries, each with its number, come on standard input.
fn asked_to_add(rt: &impl Env) -> Option<Command> {
    let mut bytes = [0u8; 16];
    let n = rt.arg(3, &mut bytes).ok()?;
    match part(&bytes, 0, n) {
        b"-" => Some(Command::AddMany),
        digits => number_of(digits).map(Command::Add),
    }
}

// The tape number that a text is, if it is one.
pub fn number_of(digits: &[u8]) -> Option<u32> {
    let n = decimal(digits);
    if n < NO_NUMBER { Some(n as u32) } else { None }
}

fn view_named(word: &[u8]) -> Option<View> {
    match word {
        b"counts" => Some(View::Counts),
        b"list" => Some(View::List),
        b"check" => Some(View::Check),
        _ => None,
    }
}
