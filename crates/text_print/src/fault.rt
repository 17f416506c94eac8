// What failed, said on standard error.
ghost use Rattle.std.specs.Prelude.{◌≤◌};

use std::io;
use std::io::Write;

// More than the system's longest reason.
const ROOM: usize = 256;

// A line on standard error: what failed, a colon, and the system's reason. Where standard error cannot be written, nobody is told.
pub fn fail(rt: &impl Eprint, what: &str, error: &io::Error) {
    let mut text = [0u8; ROOM];
    let n = reason(error, &mut text);
    let why = str::from_utf8(&text[..n]).unwrap_or("");
    let _ = eprintln!(rt; "{what}: {why}");
}

// Lays the reason at the start of a buffer, and answers its length without the error's number, which stands behind it.
fn reason(error: &io::Error, text: &mut [u8; ROOM]) -> usize
    ensures { result ≤ 256 }
{
    let mut left = &mut text[..];
    let _ = write!(left, "{error}");
    end_of(text)
}

fn end_of(text: &[u8; ROOM]) -> usize
    ensures { result ≤ 256 }
{
    for n in 0..ROOM {
        if text[n] == 0 || text[n..].starts_with(b" (os error ") {
            return n;
        }
    }
    ROOM
}
