// The tape's name and its file.
ghost use Rattle.std.specs.Prelude.{◌≤◌};

use slices::part;
use std::fs::OpenOptions;
use std::io;
use std::rt::{Env, Files};
use text_input::argument;
use text_print::fail;

// More bytes than the name of a file can have.
pub const ROOM: usize = 4096;

const OVER: usize = 2;

// Where the name stands among the arguments: the second where the first says that a tape may be written over.
pub fn name_at(rt: &impl Env) -> usize
    ensures { result ≤ 2 }
{
    let mut word = [0u8; ROOM];
    let n = rt.arg(1, &mut word).unwrap_or(0);
    match part(&word, 0, n) {
        b"--over" => OVER,
        _ => 1,
    }
}

// The file, where it can be opened for writing. A name with a dash in front is none: it was meant for an option.
pub fn open<R: Env + Files + Eprint>(rt: &R, at: usize) -> Option<R::File> {
    let mut bytes = [0u8; ROOM];
    match argument(rt, at, &mut bytes) {
        Ok(name) => open_told(rt, at, name),
        Err(e) => {
            fail(rt, "tape", &e);
            None
        }
    }
}

fn open_told<R: Files + Eprint>(rt: &R, at: usize, name: &str) -> Option<R::File> {
    if name.starts_with('-') {
        let _ = rt.eprint("usage: play [[--over] TAPE [SESSION]]\n");
        return None;
    }
    match open_named(rt, at, name) {
        Ok(file) => Some(file),
        Err(e) => {
            fail(rt, name, &e);
            None
        }
    }
}

fn open_named<R: Files>(rt: &R, at: usize, name: &str) -> io::Result<R::File> {
    let mut how = OpenOptions::new();
    how.write(true);
    if at == OVER {
        how.create(true).truncate(true);
    } else {
        how.create_new(true);
    }
    how.open(rt, name)
}
