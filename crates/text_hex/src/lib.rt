// Bytes in hexadecimal.
#![tactic(auto)]

ghost use Rattle.std.specs.Prelude.{◌≡◌, ◌≤◌, ◌<◌, length};
ghost use Rattle.slices.specs.Writing.{put};
ghost use Rattle.text_hex.specs.Digits.{digit, digit_for, pair, unhexed_for, hexed_for};

use slices::byte;

// The value of a digit of either case; 16 for a byte that is none.
pub fn digit_of(b: usize) -> usize
    ensures { (result ≡ digit b) × (result ≤ 16) }
{
    match b {
        0x30..=0x39 => b - 0x30,
        0x41..=0x46 => b - 0x41 + 10,
        0x61..=0x66 => b - 0x61 + 10,
        _ => 16,
    }
}

fn pair_of(a: usize, b: usize) -> usize
    ensures { (result ≡ pair a b) × (result ≤ 256) }
{
    let high = digit_of(a);
    let low = digit_of(b);
    if high == 16 {
        return 256;
    }
    if low == 16 {
        return 256;
    }
    16 * high + low
}

// Reads pairs of digits from the start of src into dst, as long as there are pairs and there is room, and answers how
// many bytes that gave.
pub fn unhex(src: &[u8], dst: &mut [u8]) -> usize
    ensures size { (result ≡ length (unhexed_for (length dst.old) src.now)) × (result ≤ length dst.old) }
    ensures bytes { dst.new ≡ put (unhexed_for (length dst.old) src.now) 0 dst.old }
{
    for n in 0..dst.len() {
        let value = pair_of(byte(src, 2 * n), byte(src, 2 * n + 1));
        if value == 256 {
            return n;
        }
        dst[n] = value as u8;
    }
    dst.len()
}

fn digit_for(d: usize) -> u8
    requires { d < 16 }
    ensures { result ≡ digit_for d }
{
    if d < 10 {
        (0x30 + d) as u8
    } else {
        (0x41 + (d - 10)) as u8
    }
}

// Writes src as text to the start of dst, whole bytes as long as there is room for two more characters, and answers how
// many characters that took.
pub fn hex(src: &[u8], dst: &mut [u8]) -> usize
    ensures size { (result ≡ length (hexed_for (length dst.old) src.now)) × (result ≤ length dst.old) }
    ensures text { dst.new ≡ put (hexed_for (length dst.old) src.now) 0 dst.old }
{
    for (i, b) in src.iter().enumerate() {
        if dst.len() < 2 * i + 2 {
            return 2 * i;
        }
        dst[2 * i] = digit_for((b / 16) as usize);
        dst[2 * i + 1] = digit_for((b % 16) as usize);
    }
    2 * src.len()
}
