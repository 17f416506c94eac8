// What is said on standard output.
use std::io;

// A line of two parts.
pub fn say(rt: &impl Print, first: &[u8], second: &[u8]) -> io::Result<()> {
    rt.write_all(first)?;
    rt.write_all(second)?;
    rt.write_all(b"\n")
}
