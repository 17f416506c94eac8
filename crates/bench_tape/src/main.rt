// Tapes that another program made, read and written again. Standard input has one record for each: a name of 8 bytes, the
// size of what follows (2), how many times it is repeated (2), and room for 2,048 bytes. For a readable tape each entry is a
// line (kind, length, check of the payload), and then the check of the tape as our writer makes it; for any other the line
// is place and code.
#![tactic(auto)]

ghost use Rattle.std.specs.Prelude.{◌≤◌, length};

use std::io;
use tape_write::Writer;
use text_input::read_full;

const NAME: usize = 8;

const HEAD: usize = 12;

const RECORD: usize = 2060;

const RECORDS: usize = 64;

const LONGEST: usize = 526336;

fn main(rt: HostRuntime) -> io::Result<()> {
    let mut room = [0u8; RECORD];
    for _ in 0..RECORDS {
        if read_full(&rt, &mut room) != RECORD {
            return Ok(());
        }
        show(&rt, &room)?;
    }
    Ok(())
}

fn show(rt: &impl Print, record: &[u8; RECORD]) -> io::Result<()> {
    let mut t = [0u8; LONGEST];
    show_in(rt, record, &mut t)
}

fn show_in(rt: &impl Print, record: &[u8; RECORD], t: &mut [u8; LONGEST]) -> io::Result<()> {
    let size = u16::from_be_bytes([record[NAME], record[NAME + 1]]) as usize % 2049;
    let times = u16::from_be_bytes([record[NAME + 2], record[NAME + 3]]) as usize;
    rt.write_all(&record[..NAME])?;
    let n = repeat(t, &record[HEAD..HEAD + size], times);
    read(rt, &t[..n])
}

// Lays s so many times, and answers how many bytes that makes.
fn repeat(t: &mut [u8], s: &[u8], times: usize) -> usize
    ensures { result ≤ length t.new }
{
    let mut at = 0;
    for _ in 0..times {
        if t.len() - at < s.len() {
            return at;
        }
        t[at..at + s.len()].copy_from_slice(s);
        at += s.len();
    }
    at
}

fn read(rt: &impl Print, t: &[u8]) -> io::Result<()> {
    if tape_read::TAPE < t.len() {
        return bad(rt, 0, 1);
    }
    let blocks = t.len() / tape_read::BLOCK;
    if t.len() % tape_read::BLOCK != 0 {
        return bad(rt, blocks, 2);
    }
    let first = tape_read::block_at(t, 0);
    let session = tape_read::session(first);
    let place = good_blocks(t, blocks, session);
    if place < blocks {
        let block = tape_read::block_at(t, place);
        return bad(rt, place, tape_read::code(block, place, session));
    }
    entries(rt, t, blocks, session)
}

fn bad(rt: &impl Print, place: usize, code: u8) -> io::Result<()> {
    println!(rt; " {place} {code}")
}

// How many blocks are good before the first that is not.
fn good_blocks(t: &[u8], blocks: usize, session: u32) -> usize {
    let is_bad = |n: &usize| tape_read::code(tape_read::block_at(t, *n), *n, session) != 0;
    (0..blocks).find(is_bad).unwrap_or(blocks)
}

fn entries(rt: &impl Print, t: &[u8], blocks: usize, session: u32) -> io::Result<()> {
    let mut copy = [0u8; LONGEST];
    again(rt, t, blocks, session, &mut copy)
}

fn again(
    rt: &impl Print,
    t: &[u8],
    blocks: usize,
    session: u32,
    copy: &mut [u8; LONGEST],
) -> io::Result<()> {
    let mut writer = Writer::new(session);
    println!(rt; " read")?;
    for n in 0..blocks {
        writer = entry(rt, writer, tape_read::block_at(t, n), copy)?;
    }
    written(rt, copy, writer)
}

// Shows an entry and writes it again.
fn entry(rt: &impl Print, writer: Writer, block: &[u8], copy: &mut [u8]) -> io::Result<Writer> {
    let kind = tape_read::kind(block);
    let payload = tape_read::payload(block);
    let size = payload.len();
    let check = tape_crc::whole(payload);
    println!(rt; "{kind} {size} {check:08x}")?;
    let done = writer.append(kind, payload, copy);
    Ok(done.writer)
}

fn written(rt: &impl Print, copy: &[u8], writer: Writer) -> io::Result<()> {
    let used = writer.used;
    if copy.len() / tape_read::BLOCK < used {
        return Ok(());
    }
    let check = tape_crc::whole(&copy[..used * tape_read::BLOCK]);
    println!(rt; "written {check:08x}")
}
