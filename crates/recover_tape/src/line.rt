// One line, kept in a file, unless the file does not take it.
use recover::Block;
use std::io;
use std::io::Write;
use tape_read::PAYLOAD;
use text_hex::hex;

// The longest payload in hexadecimal.
const DIGITS: usize = 2 * PAYLOAD;

// A good block, at the step where it stands in the input.
pub fn block(file: &mut impl Write, step: usize, good: Block, payload: &[u8]) -> io::Result<()> {
    write!(
        file,
        "BLOCK {step} {} {} {}",
        good.number, good.session, good.kind
    )?;
    bytes(file, payload)?;
    file.write_all(b"\n")
}

pub fn end(file: &mut impl Write, steps: usize, tail: usize) -> io::Result<()> {
    writeln!(file, "END {steps} {tail}")
}

// A space and the bytes in hexadecimal, or a dash where there are none.
fn bytes(file: &mut impl Write, s: &[u8]) -> io::Result<()> {
    if s.is_empty() {
        return file.write_all(b" -");
    }
    let mut out = [0u8; DIGITS];
    let n = hex(s, &mut out);
    file.write_all(b" ")?;
    file.write_all(&out[..n])
}
