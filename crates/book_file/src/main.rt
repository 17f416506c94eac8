// A campaign book in a file.
//
//     book_file FILE add NUMBER    enters what the judge's line on standard input says of the tape with this number
//     book_file FILE add - [WHAT]  the same for many: a line each, the number and the judge's line, answered before the next is read; then
//                                  WHAT of these, if it is named, of the file read anew:
//     book_file FILE counts        the four counts, and their sum
//     book_file FILE list          an entry a line: tape number, verdict, place, code
//     book_file FILE check         whether the file is a book
//
// Out: `entered`, `no verdict` (`no number` for one of many), `already entered` or `full`; counts; entries; `good` and the number of
// blocks. Where the file is no book, `refused`, the block and why, whatever was asked. A file that is not there is an empty book for `add`
// and an error for the others. What cannot be read or written is said on standard error, and then nothing on standard output.
#![tactic(auto)]

mod ask;
mod many;
mod one;
mod say;
mod store;

use ask::{Command, View};
use book::Book;
use book_open::{MOST, reopen};
use one::Shelf;
use slices::part;
use std::io;
use std::rt::{Env, Files};
use tape_read::BLOCK;
use text_print::fail;

// One block more than a book can have is enough to know that a file is too long.
const ROOM: usize = MOST + BLOCK;

fn main(rt: HostRuntime) -> io::Result<()> {
    let mut bytes = [0u8; ROOM];
    run(&rt, &mut bytes)
}

// Lent as an array here, so that no proof looks at its two million zeros.
fn run(rt: &(impl Env + Files + Input + Print + Eprint), bytes: &mut [u8; ROOM]) -> io::Result<()> {
    match ask::asked(rt) {
        Some(Command::Add(number)) => add(rt, number, bytes),
        Some(Command::AddMany) => add_and_show(rt, bytes),
        Some(Command::Show(view)) => show(rt, view, bytes),
        None => {
            say::usage(rt);
            Ok(())
        }
    }
}

// One entry, or a refusal.
fn add(
    rt: &(impl Env + Files + Input + Print + Eprint),
    number: u32,
    bytes: &mut [u8],
) -> io::Result<()> {
    let mut line = [0u8; 128];
    let Some(size) = store::line(rt, &mut line) else {
        say::no_line(rt);
        return Ok(());
    };
    if let Some(mut shelf) = opened(rt, bytes)? {
        shelf.enter(rt, number, part(&line, 0, size), bytes)?;
    }
    Ok(())
}

// What was entered, and then what the file holds of it.
fn add_and_show(
    rt: &(impl Env + Files + Input + Print + Eprint),
    bytes: &mut [u8],
) -> io::Result<()> {
    if let Some(mut shelf) = opened(rt, bytes)? {
        many::enter_all(rt, &mut shelf, bytes)?;
    }
    match ask::asked_behind(rt) {
        Some(view) => show(rt, view, bytes),
        None => Ok(()),
    }
}

// The book that is added to: empty where there is no file yet, none where the file cannot be read or is no book, which is said.
fn opened(rt: &(impl Env + Files + Print + Eprint), bytes: &mut [u8]) -> io::Result<Option<Shelf>> {
    match store::read_if_there(rt, bytes) {
        Ok(found) => {
            let book = reopened(rt, part(bytes, 0, found.unwrap_or(0)))?;
            let new = found.is_none();
            Ok(book.map(|book| Shelf { book, new }))
        }
        Err(e) => {
            fail(rt, "book", &e);
            Ok(None)
        }
    }
}

// The book that bytes hold; none where they are refused, which is said.
fn reopened(rt: &impl Print, bytes: &[u8]) -> io::Result<Option<Book>> {
    match reopen(bytes) {
        Ok(book) => Ok(Some(book)),
        Err(refused) => {
            say::refused(rt, refused)?;
            Ok(None)
        }
    }
}

// What a book holds.
fn show(rt: &(impl Env + Files + Print + Eprint), view: View, bytes: &mut [u8]) -> io::Result<()> {
    match store::read(rt, bytes) {
        Ok(n) => show_book(rt, view, part(bytes, 0, n)),
        Err(e) => {
            fail(rt, "book", &e);
            Ok(())
        }
    }
}

fn show_book(rt: &impl Print, view: View, bytes: &[u8]) -> io::Result<()> {
    let Some(book) = reopened(rt, bytes)? else {
        return Ok(());
    };
    match view {
        View::Counts => say::counts(rt, book),
        View::List => say::list(rt, bytes),
        View::Check => say::good(rt, book),
    }
}
