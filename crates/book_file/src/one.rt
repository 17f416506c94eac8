// One entry: handed to the book, stored, said.
ghost use Rattle.std.specs.Prelude.{◌≡◌};
ghost use Rattle.book.specs.Entering.{reply_of, book_after, bytes_after};
ghost use Rattle.book_file.specs.Lines.{entry_in};

use crate::{say, store};
use book::{Book, Refusal};
use book_block::Entry;
use book_line::entry_said;
use std::io;
use std::ops::ControlFlow;
use std::rt::{Env, Files};
use tape_read::block_at;
use text_lines::line_end;

// A book that is added to, and whether its file is still to be made: the first block makes it.
#[derive(Clone, Copy)]
pub struct Shelf {
    pub book: Book,
    pub new: bool,
}

impl Shelf {
    // The block is stored before it is said to be entered. Where it could not be stored no more is entered.
    pub fn enter(
        &mut self,
        rt: &(impl Env + Files + Print + Eprint),
        number: u32,
        line: &[u8],
        bytes: &mut [u8],
    ) -> io::Result<ControlFlow<()>> {
        let used = self.book.used;
        match handed(&mut self.book, number, line, bytes) {
            Ok(()) => {
                if let Err(why) = store::add(rt, self.new, block_at(bytes, used as usize)) {
                    say::not_stored(rt, &why);
                    return Ok(ControlFlow::Break(()));
                }
                self.new = false;
                println!(rt; "entered")?;
            }
            Err(refusal) => println!(rt; "{refusal}")?,
        }
        Ok(ControlFlow::Continue(()))
    }
}

// What a line says, handed to the book, whose reply it is: the program refuses nothing by itself.
fn handed(book: &mut Book, number: u32, line: &[u8], bytes: &mut [u8]) -> Result<(), Refusal>
    ensures reply { result ≡ reply_of book.old.used (entry_in number line.now) bytes.old }
    ensures book_after { book.new ≡ book_after book.old (entry_in number line.now) bytes.old }
    ensures bytes_after { bytes.new ≡ bytes_after book.old (entry_in number line.now) bytes.old }
{
    book.enter(entry_in(number, line), bytes)
}

// What a line says; no verdict where a space stands at its end, which the judge never writes.
#[tactic(auto, unfolding(crate::specs::Lines::entry_in, slices::specs::Choice::pick))]
fn entry_in(number: u32, line: &[u8]) -> Entry
    ensures { result ≡ entry_in number line.now }
{
    let end = line_end(line, 0);
    if 0 < end && line[end - 1] == b' ' {
        entry_said(number, b"")
    } else {
        entry_said(number, line)
    }
}
