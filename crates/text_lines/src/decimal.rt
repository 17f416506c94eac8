// A text that is a decimal number and nothing else.
ghost use Rattle.std.specs.Prelude.{◌≡◌, ◌≤◌};
ghost use Rattle.text_lines.specs.Decimal.{number_in};

use text_hex::digit_of;

// What is no number of four bytes.
pub const NO_NUMBER: usize = 0x1_0000_0000;

// The decimal number that a text is, or NO_NUMBER.
pub fn decimal(s: &[u8]) -> usize
    ensures { (result ≡ number_in s.now) × (result ≤ 0x100000000) }
{
    if s.is_empty() {
        return NO_NUMBER;
    }
    let mut n = 0;
    for b in s {
        let d = digit_of(*b as usize);
        if 10 <= d {
            return NO_NUMBER;
        }
        let more = 10 * n + d;
        if NO_NUMBER <= more {
            return NO_NUMBER;
        }
        n = more;
    }
    n
}
