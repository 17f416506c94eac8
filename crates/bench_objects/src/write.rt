// Questions to the writer of data objects.
ghost use Rattle.std.specs.Prelude.{◌≤◌};

use std::io;
use text_hex::unhex;
use text_lines::{after_word, hex_number, number};
use tlv_list::place;

pub fn write(rt: &impl Print, words: &[u8]) -> io::Result<()> {
    let mut value = [0u8; 5000];
    let second = after_word(words);
    let n = unhex(second, &mut value);
    write_into(
        rt,
        hex_number(words),
        &value[0..n],
        room(after_word(second)),
    )
}

fn room(word: &[u8]) -> usize
    ensures { result ≤ 5000 }
{
    number(word).min(5000)
}

// The buffer shows where it was touched behind the object.
fn write_into(rt: &impl Print, tag: usize, value: &[u8], room: usize) -> io::Result<()>
    requires { room ≤ 5000 }
{
    let mut buf = [text_print::UNTOUCHED; 5000];
    let written = print_written(rt, tag, value, &mut buf[0..room])?;
    text_print::touched(rt, &buf, written)
}

// Prints the object or the refusal, and answers how many bytes were written.
fn print_written(rt: &impl Print, tag: usize, value: &[u8], buf: &mut [u8]) -> io::Result<usize> {
    match tlv_write::write(tag, value, buf) {
        Err(why) => {
            print!(rt; "refused {}", why.number())?;
            Ok(0)
        }
        Ok(n) => {
            text_print::bytes(rt, place::value(buf, 0, n))?;
            Ok(n)
        }
    }
}
