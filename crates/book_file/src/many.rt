// Many entries, a line each: the number, a space, and the judge's line.
use crate::ask::number_of;
use crate::one::Shelf;
use slices::part;
use std::io;
use std::ops::ControlFlow;
use std::rt::{Env, Files};
use text_input::{Line, read_line};
use text_lines::{after_word, word_end};

// More lines than there can be: nothing says that the input ends.
const MOST: usize = 0x7FFF_FFFF_FFFF_FFFF;

pub fn enter_all(
    rt: &(impl Env + Files + Input + Print + Eprint),
    shelf: &mut Shelf,
    bytes: &mut [u8],
) -> io::Result<()> {
    let mut line = [0u8; 128];
    for _ in 0..MOST {
        match read_line(rt, &mut line) {
            Line::Whole(n) => {
                if enter_line(rt, shelf, part(&line, 0, n), bytes)?.is_break() {
                    return Ok(());
                }
            }
            Line::Long => println!(rt; "no number")?,
            Line::End => return Ok(()),
        }
    }
    Ok(())
}

fn enter_line(
    rt: &(impl Env + Files + Print + Eprint),
    shelf: &mut Shelf,
    line: &[u8],
    bytes: &mut [u8],
) -> io::Result<ControlFlow<()>> {
    match number_of(part(line, 0, word_end(line, 0))) {
        Some(number) => shelf.enter(rt, number, after_word(line), bytes),
        None => {
            println!(rt; "no number")?;
            Ok(ControlFlow::Continue(()))
        }
    }
}
