// The lines, until all of them are there: a temporary file that has lost its name at once, so that nothing is left of it.
ghost use Rattle.std.specs.Prelude.{◌<◌};

use slices::part;
use std::fs::{File, OpenOptions};
use std::io::{ErrorKind, Read, Seek, SeekFrom, Write};
use std::os::fd::AsRawFd;
use std::os::unix::fs::OpenOptionsExt;
use std::rt::Files;
use std::{fs, io};
use text_print::fail;

// More pieces than there can be.
const MOST: usize = 0x7FFF_FFFF_FFFF_FFFF;

// So many names are tried.
const NAMES: u32 = 1_000_000;

// The system's number for a name that is taken.
const TAKEN: i32 = 17;

// The number of standard error: the last of the three standard streams.
const LAST_STREAM: i32 = 2;

// A file to write to and to read back, where there is one. The first free number is taken, so one of the first three says that a standard
// stream is closed: the lines would be read or told there.
pub fn open(rt: &(impl Files<File = File> + Eprint)) -> Option<File> {
    match create(rt) {
        Ok(file) => {
            if file.as_raw_fd() <= LAST_STREAM {
                let _ = rt.eprint("recover_tape: a standard stream is closed\n");
                return None;
            }
            Some(file)
        }
        Err(e) => {
            fail(rt, "recover_tape: a file for the lines", &e);
            None
        }
    }
}

// The first name that is free. It is lost at once.
fn create(rt: &impl Files<File = File>) -> io::Result<File> {
    for n in 0..NAMES {
        match create_named(rt, n) {
            Ok(file) => return Ok(file),
            Err(e) if e.kind() == ErrorKind::AlreadyExists => {}
            Err(e) => return Err(e),
        }
    }
    Err(io::Error::from_raw_os_error(TAKEN))
}

// A file that nobody else may read.
fn create_named(rt: &impl Files<File = File>, n: u32) -> io::Result<File> {
    let mut bytes = [0u8; 24];
    let mut room = &mut bytes[..];
    write!(room, "/tmp/recover_tape.{n:06}")?;
    let name = str::from_utf8(&bytes).unwrap_or("");
    let file = OpenOptions::new()
        .read(true)
        .write(true)
        .create_new(true)
        .mode(0o600)
        .open(rt, name)?;
    let _ = fs::remove_file(rt, name);
    Ok(file)
}

// All that was kept, to standard output.
pub fn say(rt: &(impl Print + Eprint), file: &mut File, buf: &mut [u8]) {
    if let Err(e) = file.seek(SeekFrom::Start(0)) {
        fail(rt, "recover_tape: the lines cannot be read back", &e);
        return;
    }
    for _ in 0..MOST {
        if !say_some(rt, file, buf) {
            return;
        }
    }
}

// One piece of it: whether there may be more.
fn say_some(rt: &(impl Print + Eprint), file: &mut File, buf: &mut [u8]) -> bool {
    let n = match file.read(buf) {
        Ok(n) => n,
        Err(e) => {
            fail(rt, "recover_tape: the lines cannot be read back", &e);
            return false;
        }
    };
    if n == 0 {
        return false;
    }
    if let Err(e) = rt.write_all(part(buf, 0, n)) {
        fail(rt, "recover_tape: the lines could not be written", &e);
        return false;
    }
    true
}
