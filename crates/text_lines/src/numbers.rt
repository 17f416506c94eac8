// Numbers at the start of a text. What is no digit ends a number, and so does a digit that would make it too large.
ghost use Rattle.std.specs.Prelude.{◌≡◌, ◌≤◌, ◌<◌};
ghost use Rattle.text_lines.specs.Numbers.{continued, decimal_number, hex_number};

use text_hex::digit_of;

// A decimal number, at most 1,000,000,000.
pub fn number(s: &[u8]) -> usize
    ensures { (result ≡ decimal_number s.now) × (result ≤ 1000000000) }
{
    number_in(10, 1_000_000_000, s)
}

// A hexadecimal number, at most 'FFFFFFFF'.
pub fn hex_number(s: &[u8]) -> usize
    ensures { (result ≡ hex_number s.now) × (result ≤ 0xFFFFFFFF) }
{
    number_in(16, 0xFFFF_FFFF, s)
}

fn number_in(base: usize, most: usize, s: &[u8]) -> usize
    requires { (base ≤ 16) × (most ≤ 0xFFFFFFFF) }
    ensures { (result ≡ continued base most 0 s.now) × (result ≤ most) }
{
    let mut n = 0;
    for b in s {
        let d = digit_of(*b as usize);
        if base <= d {
            return n;
        }
        let more = base * n + d;
        if most < more {
            return n;
        }
        n = more;
    }
    n
}
