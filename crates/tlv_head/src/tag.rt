// Tags, at the front of some bytes and as numbers. A byte past the end reads as 0.
ghost use Rattle.std.specs.Prelude.{◌≡◌, ◌<◌, ◌≤◌};
ghost use Rattle.tlv_head.specs.Head.{constructed, first_byte, two_bytes, tag_size, tag_of, tag_right};

use slices::byte;

pub fn is_constructed(tag: usize) -> bool
    ensures { result ≡ constructed tag }
{
    let first = first_byte(tag);
    first / 32 % 2 == 1
}

fn first_byte(tag: usize) -> usize
    ensures { result ≡ first_byte tag }
{
    if tag < 256 { tag } else { tag / 256 }
}

pub fn has_two_bytes(b: usize) -> bool
    ensures { result ≡ two_bytes b }
{
    b % 32 == 31
}

pub fn tag_size(s: &[u8]) -> usize
    ensures { (result ≡ tag_size s.now) × (result ≤ 2) }
{
    if has_two_bytes(byte(s, 0)) { 2 } else { 1 }
}

pub fn tag_of(s: &[u8]) -> usize
    ensures { (result ≡ tag_of s.now) × (result < 65536) }
{
    let first = byte(s, 0);
    if has_two_bytes(first) {
        256 * first + byte(s, 1)
    } else {
        first
    }
}

// Whether a tag stands at the front.
pub fn is_tag_right(s: &[u8]) -> bool
    ensures { result ≡ tag_right s.now }
{
    let first = byte(s, 0);
    if first == 0 {
        false
    } else if has_two_bytes(first) {
        byte(s, 1) < 0x80
    } else {
        true
    }
}
