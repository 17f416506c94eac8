// The tape's file, where there is one.
use crate::stop::Stop;
use std::fs::OpenFile;
use std::io;
use std::io::Write;
use tape_read::block_at;
use tape_write::Appended;

// Stores the blocks that a call has added to those before it: all that was due is then stored and on the disk.
pub fn store<F: Write + OpenFile>(
    file: &mut Option<F>,
    tape: &[u8],
    before: usize,
    kept: Appended,
) -> Result<(), Stop> {
    if kept.refusal != 0 {
        return Err(Stop::Refused);
    }
    match file {
        None => Ok(()),
        Some(file) => store_all(file, tape, before, kept.writer.used).map_err(|e| Stop::Unstored(
            e,
        )),
    }
}

// The blocks from one number up to another, in order, as far as the file takes them.
fn store_all<F: Write + OpenFile>(
    file: &mut F,
    tape: &[u8],
    from: usize,
    to: usize,
) -> io::Result<()> {
    for i in from..to {
        file.write_all(block_at(tape, i))?;
    }
    file.sync_all()
}
