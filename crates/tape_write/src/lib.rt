// A tape written entry by entry, each in a block after the last.
#![tactic(auto)]

ghost use Rattle.std.specs.Prelude.{◌≡◌, ◌≤◌, length};
ghost use Rattle.slices.specs.Writing.{put};
ghost use Rattle.tape_read.specs.Entries.{entry, block_size, payload_most};
ghost use Rattle.tape_read.specs.Blocks.{head, body, block as block_of};
ghost use Rattle.tape_write.specs.Appending.{refusal_of, appended_of, tape_after, fresh};

use numbers::{REFUSED_ENTRY, REFUSED_ROOM};
use tape_read::{BLOCK, BLOCKS, CHECK_AT, PAYLOAD, PAYLOAD_AT, four_bytes, no_kind};

// How many blocks have been used, and the session number that each block carries.
#[derive(Clone, Copy)]
pub struct Writer {
    pub used: usize,
    pub session: u32,
}

// The writer afterwards, and 0 or the number under which the entry was turned away.
#[derive(Clone, Copy)]
pub struct Appended {
    pub writer: Writer,
    pub refusal: u8,
}

impl Writer {
    // A writer on an empty tape.
    pub fn new(session: u32) -> Self
        ensures { result ≡ fresh session }
    {
        Self { used: 0, session }
    }

    // One entry more: its block goes after those used, or the entry is turned away and nothing changes.
    pub fn append(self, kind: u8, payload: &[u8], tape: &mut [u8]) -> Appended
        ensures value { result ≡ appended_of self (refusal_of self.used (entry kind payload.now) tape.old) }
        ensures tape_after { tape.new ≡ tape_after self (entry kind payload.now) tape.old }
    {
        let used = self.used;
        let session = self.session;
        let refusal = why_refused(used, kind, payload, tape);
        if refusal != 0 {
            return Appended {
                writer: self,
                refusal,
            };
        }
        let at = used * BLOCK;
        fill(
            &mut tape[at..at + BLOCK],
            used as u32,
            session,
            kind,
            payload,
        );
        Appended {
            writer: Writer {
                used: used + 1,
                session,
            },
            refusal: 0,
        }
    }
}

// 0, or the number of the first refusal that applies.
fn why_refused(used: usize, kind: u8, payload: &[u8], tape: &[u8]) -> u8
    ensures { result ≡ refusal_of used (entry kind payload.now) tape.now }
{
    if no_kind(kind) {
        return REFUSED_ENTRY;
    }
    if PAYLOAD < payload.len() {
        return REFUSED_ENTRY;
    }
    if BLOCKS <= used {
        return REFUSED_ROOM;
    }
    if tape.len() < used * BLOCK + BLOCK {
        return REFUSED_ROOM;
    }
    0
}

// A whole block: its body, and the check of that.
fn fill(block: &mut [u8], number: u32, session: u32, kind: u8, payload: &[u8])
    requires { (length block.old ≡ block_size) × (length payload.now ≤ payload_most) }
    ensures { block.new ≡ block_of number session (entry kind payload.now) }
{
    lay_body(block, number, session, kind, payload);
    let check = tape_crc::of_block(block);
    slices::lay(block, CHECK_AT, &four_bytes(check));
}

// The head, the payload, and zeros up to the check.
fn lay_body(block: &mut [u8], number: u32, session: u32, kind: u8, payload: &[u8])
    requires { (length block.old ≡ block_size) × (length payload.now ≤ payload_most) }
    ensures { block.new ≡ put (body number session (entry kind payload.now)) 0 block.old }
{
    let n = payload.len();
    let zeros = [0u8; PAYLOAD];
    slices::lay(block, 0, &head_bytes(number, session, kind, payload));
    slices::lay(block, PAYLOAD_AT, payload);
    slices::lay(block, PAYLOAD_AT + n, &zeros[n..]);
}

// The bytes before the payload.
fn head_bytes(number: u32, session: u32, kind: u8, payload: &[u8]) -> [u8; PAYLOAD_AT]
    ensures { result ≡ head number session (entry kind payload.now) }
{
    let a = four_bytes(number);
    let s = four_bytes(session);
    let n = payload.len();
    [
        a[0],
        a[1],
        a[2],
        a[3],
        s[0],
        s[1],
        s[2],
        s[3],
        kind,
        0,
        (n / 256 % 256) as u8,
        (n % 256) as u8,
    ]
}
