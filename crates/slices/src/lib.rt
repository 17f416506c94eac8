// Bytes in lent buffers: reads that are never out of range, and writes that never run past the end.
#![tactic(auto)]

ghost use Rattle.std.specs.Prelude.{◌≡◌, ◌<◌, length, get_or, take, drop, replicate};
ghost use Rattle.slices.specs.Tests.{alike as alike_of};
ghost use Rattle.slices.specs.Writing.{laid};

// The byte at a place; 0 past the end.
pub fn byte(s: &[u8], i: usize) -> usize
    ensures { (result ≡ get_or s.now i 0) × (result < 256) }
{
    s.get(i).copied().unwrap_or(0) as usize
}

// At most n bytes from a place on, as a part of the slice itself: those that are there.
pub fn part(s: &[u8], from: usize, n: usize) -> &[u8]
    ensures { result.now ≡ take n (drop from s.now) }
{
    let rest = &s[from.min(s.len())..];
    &rest[..n.min(rest.len())]
}

// Bytes laid into a buffer from a place on; where they do not fit, nothing changes.
pub fn lay(buf: &mut [u8], at: usize, s: &[u8])
    ensures { buf.new ≡ laid s.now at buf.old }
{
    if buf.len() < at {
        return;
    }
    if buf.len() - at < s.len() {
        return;
    }
    for (i, b) in s.iter().enumerate() {
        buf[at + i] = *b;
    }
}

// Every byte of a buffer the same.
pub fn blank(buf: &mut [u8], b: u8)
    ensures { buf.new ≡ replicate (length buf.old) b }
{
    buf.fill(b);
}

// Whether two slices are the same: `==`, under the name that definitions above have for it.
pub fn alike(a: &[u8], b: &[u8]) -> bool
    ensures { result ≡ alike_of a.now b.now }
{
    a == b
}
