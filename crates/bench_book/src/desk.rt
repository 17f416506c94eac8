// One book under test, and the bytes that are put together to be reopened.
use book::{Book, Refusal};
use book_block::Entry;
use book_open::reopen;
use slices::{blank, lay, part};
use std::io;
use tape_read::BLOCK;
use text_hex::unhex;
use text_lines::{after_word, hex_number};

// More than 4,096 blocks.
pub const ROOM: usize = 2_101_760;

// A number of four bytes is below this.
const LONG: usize = 0x1_0000_0000;

// The book's end, the bytes lent to it, and how many bytes have been put together.
#[derive(Clone, Copy)]
pub struct Desk {
    pub book: Book,
    pub room: usize,
    pub size: usize,
}

// Four numbers; those that are not there are 0.
pub fn four(s: &[u8]) -> [usize; 4] {
    let t = after_word(s);
    let u = after_word(t);
    let v = after_word(u);
    [hex_number(s), hex_number(t), hex_number(u), hex_number(v)]
}

impl Desk {
    // An empty book, lent so many bytes.
    pub fn new(room: usize) -> Self {
        Self {
            book: Book::new(),
            room,
            size: 0,
        }
    }

    pub fn begin(&mut self, room: usize, stored: &mut [u8]) {
        blank(stored, 0);
        *self = Self::new(room);
    }

    pub fn enter(
        &mut self,
        rt: &impl Print,
        numbers: [usize; 4],
        stored: &mut [u8],
    ) -> io::Result<()> {
        let reply = self.entered(numbers, stored);
        self.say(rt, reply)
    }

    // One entry, where the room is there.
    fn entered(&mut self, numbers: [usize; 4], stored: &mut [u8]) -> Result<(), Refusal> {
        if stored.len() < self.room {
            return Err(Refusal::Full);
        }
        let [tape, verdict, place, code] = numbers;
        let e = Entry {
            tape: (tape % LONG) as u32,
            verdict: (verdict % 256) as u8,
            place: (place % LONG) as u32,
            code: (code % LONG) as u32,
        };
        self.book.enter(e, &mut stored[..self.room])
    }

    // Many entries with one verdict, the tapes numbered on.
    pub fn run(
        &mut self,
        rt: &impl Print,
        numbers: [usize; 4],
        stored: &mut [u8],
    ) -> io::Result<()> {
        let [first, verdict, count, _] = numbers;
        let mut reply = Ok(());
        for i in 0..count {
            reply = self.entered([first % LONG + i % LONG, verdict, i % 1000, 0], stored);
        }
        self.say(rt, reply)
    }

    pub fn tell(&self, rt: &impl Print, stored: &[u8]) -> io::Result<()> {
        let used = self.book.used;
        let size = used as usize * BLOCK;
        let held = tape_crc::whole(part(stored, 0, size));
        let rest = tape_crc::whole(part(part(stored, 0, self.room), size, stored.len()));
        println!(rt; "{used} {held} {rest}")
    }

    // Bytes after those put together so far, where they have room.
    fn add(&mut self, more: &[u8], bytes: &mut [u8]) {
        if self.size <= bytes.len() && more.len() <= bytes.len() - self.size {
            lay(bytes, self.size, more);
            self.size += more.len();
        }
    }

    // The stored bytes from one place to another.
    pub fn add_part(&mut self, numbers: [usize; 4], stored: &[u8], bytes: &mut [u8]) {
        let [from, to, _, _] = numbers;
        if from <= to {
            self.add(part(stored, from, to - from), bytes);
        }
    }

    pub fn add_zeros(&mut self, count: usize, bytes: &mut [u8]) {
        self.add(part(&[0; BLOCK], 0, count), bytes);
    }

    pub fn add_hex(&mut self, digits: &[u8], bytes: &mut [u8]) {
        let mut more = [0u8; BLOCK];
        let n = unhex(digits, &mut more);
        self.add(&more[..n], bytes);
    }

    pub fn open(&mut self, rt: &impl Print, bytes: &[u8]) -> io::Result<()> {
        match reopen(part(bytes, 0, self.size)) {
            Ok(book) => {
                print!(rt; "open {}", book.used)?;
                counts(rt, book)?;
            }
            Err(refused) => println!(rt; "refused {} {}", refused.place, refused.fault.number())?,
        }
        self.size = 0;
        Ok(())
    }

    // The last reply, and what the book then counts.
    fn say(&self, rt: &impl Print, reply: Result<(), Refusal>) -> io::Result<()> {
        match reply {
            Ok(()) => print!(rt; "entered")?,
            Err(refusal) => print!(rt; "{refusal}")?,
        }
        counts(rt, self.book)
    }
}

fn counts(rt: &impl Print, book: Book) -> io::Result<()> {
    print!(rt;
        " {} {} {} {}",
        book.pass, book.fail, book.inconclusive, book.unreadable
    )?;
    println!(rt; " {}", book.total())
}
