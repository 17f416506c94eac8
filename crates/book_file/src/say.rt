// What is written: to standard output what a book holds, to standard error what went wrong.
use crate::store::NotStored;
use book::Book;
use book_block::{FAIL, INCONCLUSIVE, PASS, entry_in};
use book_open::Refused;
use std::io;
use tape_read::BLOCK;
use text_print::fail;

pub fn usage(rt: &impl Eprint) {
    let _ = rt.eprint(
        "usage: book FILE add NUMBER < LINE, book FILE add - [counts, list or check] < LINES, or book FILE counts, list or check\n",
    );
}

pub fn no_line(rt: &impl Eprint) {
    let _ = rt.eprint("book: standard input is not a line of the judge's\n");
}

// A part of a block leaves no reason behind, so it is said in words.
pub fn not_stored(rt: &impl Eprint, why: &NotStored) {
    match why {
        NotStored::Part => {
            let _ = rt.eprint("book: only a part of the block could be stored\n");
        }
        NotStored::Failed(error) => fail(rt, "book: the block could not be stored", error),
    }
}

pub fn refused(rt: &impl Print, refused: Refused) -> io::Result<()> {
    println!(rt; "refused {} {}", refused.place, refused.fault)
}

pub fn good(rt: &impl Print, book: Book) -> io::Result<()> {
    println!(rt; "good {}", book.used)
}

pub fn counts(rt: &impl Print, book: Book) -> io::Result<()> {
    print!(rt;
        "PASS {} FAIL {} INCONCLUSIVE {} ",
        book.pass, book.fail, book.inconclusive
    )?;
    println!(rt; "UNREADABLE {} TOTAL {}", book.unreadable, book.total())
}

pub fn list(rt: &impl Print, bytes: &[u8]) -> io::Result<()> {
    for block in bytes.chunks_exact(BLOCK) {
        entry(rt, block)?;
    }
    Ok(())
}

fn entry(rt: &impl Print, block: &[u8]) -> io::Result<()> {
    let e = entry_in(block);
    let verdict = match e.verdict {
        PASS => "PASS",
        FAIL => "FAIL",
        INCONCLUSIVE => "INCONCLUSIVE",
        _ => "UNREADABLE",
    };
    println!(rt; "{} {verdict} {} {}", e.tape, e.place, e.code)
}
