// Printing to standard output, for programs that answer a line at a time. Of what is written no contract can speak: a caller
// learns that the function ends and, where all was written, hands nothing back. Each piece is written at once.
#![tactic(auto)]

mod fault;

ghost use Rattle.std.specs.Prelude.{◌≡◌, IfOk};

pub use fault::fail;
use std::io;
use text_hex::hex;

pub fn text(rt: &impl Print, s: &[u8]) -> io::Result<()>
    ensures { IfOk result (λ r. r ≡ tt) }
{
    rt.write_all(s)
}

pub fn number(rt: &impl Print, n: usize) -> io::Result<()>
    ensures { IfOk result (λ r. r ≡ tt) }
{
    rt.print(n)
}

// Bytes in hexadecimal.
pub fn bytes(rt: &impl Print, s: &[u8]) -> io::Result<()>
    ensures { IfOk result (λ r. r ≡ tt) }
{
    let mut out = [0u8; 10000];
    let n = hex(s, &mut out);
    text(rt, &out[..n])
}

// The same, and `-` for none.
pub fn bytes_or_dash(rt: &impl Print, s: &[u8]) -> io::Result<()>
    ensures { IfOk result (λ r. r ≡ tt) }
{
    if s.is_empty() {
        text(rt, b"-")
    } else {
        bytes(rt, s)
    }
}

// A tag of one or two bytes.
pub fn tag(rt: &impl Print, t: usize) -> io::Result<()>
    ensures { IfOk result (λ r. r ≡ tt) }
{
    let both = ((t % 65536) as u16).to_be_bytes();
    if t < 256 {
        bytes(rt, &both[1..])
    } else {
        bytes(rt, &both)
    }
}

// What a bench fills a buffer with before it lends it, so that a byte that was touched shows.
pub const UNTOUCHED: u8 = 0xA5;

// Says so where a byte from a place on was touched.
pub fn touched(rt: &impl Print, buf: &[u8], from: usize) -> io::Result<()>
    ensures { IfOk result (λ r. r ≡ tt) }
{
    if is_touched(buf, from) {
        text(rt, b" touched")
    } else {
        Ok(())
    }
}

fn is_touched(buf: &[u8], from: usize) -> bool {
    buf.iter().skip(from).any(|b| *b != UNTOUCHED)
}
