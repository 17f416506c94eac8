// The book's file, named by the first argument.
use std::fs::{OpenFile, OpenOptions};
use std::io::{ErrorKind, Write};
use std::rt::{Env, Files};
use std::{fs, io};
use tape_read::BLOCK;
use text_input::{argument, fill};

// More bytes than the name of a file can have.
const NAME: usize = 4096;

// Why a block is not stored: a part of it alone could be, or the system's reason.
#[derive(Clone, Copy)]
pub enum NotStored {
    Part,
    Failed(io::Error),
}

impl From<io::Error> for NotStored {
    fn from(error: io::Error) -> Self {
        NotStored::Failed(error)
    }
}

// The whole file at the start of a buffer, or as much of it as there is room for: how many bytes.
pub fn read(rt: &(impl Env + Files), buf: &mut [u8]) -> io::Result<usize> {
    fill(&mut open(rt)?, buf)
}

// The same, and none where there is no such file.
pub fn read_if_there(rt: &(impl Env + Files), buf: &mut [u8]) -> io::Result<Option<usize>> {
    match open(rt) {
        Ok(mut file) => Ok(Some(fill(&mut file, buf)?)),
        Err(e) if e.kind() == ErrorKind::NotFound => Ok(None),
        Err(e) => Err(e),
    }
}

fn open<R: Env + Files>(rt: &R) -> io::Result<R::File> {
    let mut bytes = [0u8; NAME];
    fs::open(rt, argument(rt, 1, &mut bytes)?)
}

// What standard input brings, its length; none where it is too long for a line, or cannot be read.
pub fn line(rt: &impl Input, buf: &mut [u8]) -> Option<usize> {
    let n = fill(&mut rt.reader(), buf).ok()?;
    if n < buf.len() { Some(n) } else { None }
}

// One block at the end of the file, in one write, and on its device before the answer is given.
pub fn add(rt: &(impl Env + Files), new: bool, block: &[u8]) -> Result<(), NotStored> {
    let mut bytes = [0u8; NAME];
    let name = argument(rt, 1, &mut bytes)?;
    let mut how = OpenOptions::new();
    if new {
        how.write(true).create_new(true);
    } else {
        how.append(true);
    }
    let mut file = how.open(rt, name)?;
    if file.write(block)? != BLOCK {
        return Err(NotStored::Part);
    }
    file.sync_all()?;
    Ok(())
}
