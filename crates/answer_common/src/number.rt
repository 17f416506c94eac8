// The card number, 5A, by halves of its bytes.
ghost use Rattle.std.specs.Prelude.{◌≡◌, ◌*◌, ◌≤◌, length, get_or, drop};
ghost use Rattle.answer_common.specs.CardNumber.{halves, digits as digits_of, only_f, card_number};

use slices::byte;

// The half at a place: two to a byte.
fn half(v: &[u8], i: usize) -> usize
    ensures { result ≡ get_or (halves v.now) i 0 }
{
    let b = byte(v, i / 2);
    if i % 2 == 0 { b / 16 } else { b % 16 }
}

// How many digits stand at the front.
fn digits(v: &[u8]) -> usize
    requires { length v.now ≤ 10 }
    ensures { result ≡ digits_of (halves v.now) }
{
    for i in 0..2 * v.len() {
        if 9 < half(v, i) {
            return i;
        }
    }
    2 * v.len()
}

// Whether only 'F' stands from a place on.
fn is_only_f(v: &[u8], from: usize) -> bool
    requires { length v.now ≤ 10 }
    ensures { result ≡ only_f (drop from (halves v.now)) }
{
    for i in from..2 * v.len() {
        if half(v, i) != 0xF {
            return false;
        }
    }
    true
}

pub fn is_card_number(v: &[u8]) -> bool
    ensures { result ≡ card_number v.now }
{
    if v.len() < 1 {
        return false;
    }
    if 10 < v.len() {
        return false;
    }
    let n = digits(v);
    1 <= n && is_only_f(v, n)
}
