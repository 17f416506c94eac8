// The writer: one object at the start of a lent buffer, with the shortest length form.
#![tactic(auto)]

ghost use Rattle.std.specs.Prelude.{◌≡◌, ◌+◌, ◌<◌, ◌≤◌, length};
ghost use Rattle.slices.specs.Writing.{laid, put};
ghost use Rattle.tlv_write.specs.Written.{is_tag, tag_bytes, length_bytes, fits_tag, written};
ghost use Rattle.tlv_write.specs.Written.{write_refusal, refusal_of, number_of, size_of, size_written, buffer_after};

use numbers::{REFUSED_SPACE, REFUSED_WRITING};
use slices::lay;
use tlv_head::tag::{has_two_bytes, is_constructed};
use tlv_list::place::list_refusal;

// Why an object is not written: refusals 10 and 11.
#[derive(Clone, Copy, PartialEq, Eq)]
pub enum WriteRefusal {
    BadObject,
    NoRoom,
}

impl WriteRefusal {
    // 01's number for it.
    #[tactic(auto, unfolding(crate::specs::Written::refusal_of))]
    pub fn number(self) -> usize
        ensures { result ≡ number_of self }
    {
        match self {
            WriteRefusal::BadObject => REFUSED_WRITING,
            WriteRefusal::NoRoom => REFUSED_SPACE,
        }
    }
}

fn is_tag(t: usize) -> bool
    ensures { result ≡ is_tag t }
{
    if t < 256 {
        t != 0 && !has_two_bytes(t)
    } else {
        t < 65536 && has_two_bytes(t / 256) && t % 256 < 0x80
    }
}

fn fits_tag(tag: usize, value: &[u8]) -> bool
    requires { length value.now ≤ 4096 }
    ensures { result ≡ fits_tag tag value.now }
{
    !is_constructed(tag) || list_refusal(value) == 0
}

fn tag_size(tag: usize) -> usize
    ensures { (result ≡ length (tag_bytes tag)) × (result ≤ 2) }
{
    if tag < 256 { 1 } else { 2 }
}

fn length_size(n: usize) -> usize
    ensures { (result ≡ length (length_bytes n)) × (result ≤ 3) }
{
    if n < 0x80 {
        1
    } else if n < 256 {
        2
    } else {
        3
    }
}

// Whether the object may be written. Its size goes before the list check, which refuses over 4,096 bytes by another number.
fn accept(tag: usize, value: &[u8], room: usize) -> Result<(), WriteRefusal>
    ensures { refusal_of result ≡ write_refusal tag value.now room }
{
    if 4096 < value.len() {
        return Err(WriteRefusal::BadObject);
    }
    let size = tag_size(tag) + length_size(value.len()) + value.len();
    if 4096 < size || !is_tag(tag) || !fits_tag(tag, value) {
        return Err(WriteRefusal::BadObject);
    }
    if room < size {
        return Err(WriteRefusal::NoRoom);
    }
    Ok(())
}

fn lay_tag(buf: &mut [u8], tag: usize)
    requires { tag < 65536 }
    ensures { buf.new ≡ laid (tag_bytes tag) 0 buf.old }
{
    if tag < 256 {
        let one = [tag as u8];
        lay(buf, 0, &one);
    } else {
        let two = [(tag / 256) as u8, (tag % 256) as u8];
        lay(buf, 0, &two);
    }
}

fn lay_length(buf: &mut [u8], at: usize, n: usize)
    requires { n < 65536 }
    ensures { buf.new ≡ laid (length_bytes n) at buf.old }
{
    if n < 0x80 {
        let one = [n as u8];
        lay(buf, at, &one);
    } else if n < 256 {
        let two = [0x81, n as u8];
        lay(buf, at, &two);
    } else {
        let three = [0x82, (n / 256) as u8, (n % 256) as u8];
        lay(buf, at, &three);
    }
}

// The object's bytes at the start of a buffer that has room for them, and how many they are.
fn lay_object(buf: &mut [u8], tag: usize, value: &[u8]) -> usize
    requires { (tag < 65536) × (length value.now < 65536) × (length (written tag value.now) ≤ length buf.old) }
    ensures size { result ≡ length (written tag value.now) }
    ensures buffer { buf.new ≡ put (written tag value.now) 0 buf.old }
{
    let a = tag_size(tag);
    let b = a + length_size(value.len());
    lay_tag(buf, tag);
    lay_length(buf, a, value.len());
    lay(buf, b, value);
    b + value.len()
}

pub fn write(tag: usize, value: &[u8], buf: &mut [u8]) -> Result<usize, WriteRefusal>
    ensures refusal { refusal_of result ≡ write_refusal tag value.now (length buf.old) }
    ensures size { size_of result ≡ size_written tag value.now (length buf.old) }
    ensures buffer { buf.new ≡ buffer_after tag value.now buf.old }
{
    accept(tag, value, buf.len())?;
    Ok(lay_object(buf, tag, value))
}
