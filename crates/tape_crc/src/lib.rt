// CRC-32 (IEEE 802.3), four bytes at a time from stored tables of remainders.
#![tactic(auto)]

mod table;
mod table_after_one;
mod table_after_three;
mod table_after_two;

ghost use Rattle.std.specs.Prelude.{◌≡◌, ◌++◌, ℕ, ◌+◌, ◌*◌, ◌/◌, ◌≤◌, length, get_or, drop};
ghost use Rattle.tape_crc.specs.Check.{shifted, divided, running_of, check_of, block_check_of};
ghost use Rattle.tape_crc.specs.Parts.{part, pair as pair_of};
ghost use Rattle.tape_crc.specs.Tables.{Remainders, Follows};

use table::REMAINDERS;
use table_after_one::AFTER_ONE;
use table_after_three::AFTER_THREE;
use table_after_two::AFTER_TWO;

// Where the register starts, and the last value's complement.
const ONES: u32 = 0xFFFF_FFFF;

// How many bytes of a block its check covers.
const COVERED: usize = 508;

// How many bytes each of two parts has that are taken in side by side, and both.
const PART: usize = 252;

const PAIR: usize = 504;

// What a one above the register's top bit leaves when the bits of a part are shifted out.
const ABOVE_LEAVES: u32 = 0xE95C_1271;

const DIVISOR: u32 = 0xEDB8_8320;

// The stored tables, lent: what a byte leaves, and what it leaves behind one, two and three bytes of zeros.
#[derive(Clone, Copy)]
struct Stored<'a> {
    none: &'a [u32; 256],
    one: &'a [u32; 256],
    two: &'a [u32; 256],
    three: &'a [u32; 256],
    ghost leaves: { Remainders none.now },
    ghost one_on: { Follows none.now none.now one.now },
    ghost two_on: { Follows none.now one.now two.now },
    ghost three_on: { Follows none.now two.now three.now },
}

// The register one slice further.
pub fn running(register: u32, s: &[u8]) -> u32
    ensures { result ≡ running_of register s.now }
{
    // Taken once and lent: a constant is copied wherever it is named.
    let none = REMAINDERS;
    let one = AFTER_ONE;
    let two = AFTER_TWO;
    let three = AFTER_THREE;
    by_tables(
        register,
        s,
        Stored {
            none: &none,
            one: &one,
            two: &two,
            three: &three,
        },
    )
}

// By pairs of parts, then by fours, and then the one to three bytes that are left.
fn by_tables(register: u32, s: &[u8], t: Stored<'_>) -> u32
    ensures { result ≡ running_of register s.now }
{
    let p = by_pairs(register, s, t);
    let rest = &s[s.len() / PAIR * PAIR..];
    let r = by_fours(p, rest, t);
    by_bytes(r, &rest[rest.len() / 4 * 4..], t.none)
}

// The register after as many pairs of parts as there are: the bytes that are left take it to where the slice ends.
fn by_pairs(register: u32, s: &[u8], t: Stored<'_>) -> u32
    ensures { running_of result (drop (length s.now / pair_of * pair_of) s.now)
        ≡ running_of register s.now }
{
    let mut r = register;
    for k in 0..s.len() / PAIR {
        let i = k * PAIR;
        r = pair(r, &s[i..i + PART], &s[i + PART..i + PAIR], t);
    }
    r
}

// The register after two parts, one behind the other. The turns of one part wait for each other, so the second is taken in beside
// the first, from nothing; then what the first left goes past as many zeros as the second has bytes, and the two are joined.
fn pair(register: u32, first: &[u8], second: &[u8], t: Stored<'_>) -> u32
    requires { (length first.now ≡ part) × (length second.now ≡ part) }
    ensures { result ≡ running_of register (first.now ++ second.now) }
{
    let mut r = register;
    let mut q = 0;
    for k in 0..PART / 4 {
        r = turn(r ^ word(first, 4 * k), t);
        q = turn(q ^ word(second, 4 * k), t);
    }
    past_part(r) ^ q
}

// The register past a part of zeros, bit by bit from the top: what a bit leaves is what the one above it leaves, shifted once more.
fn past_part(register: u32) -> u32
    ensures { result ≡ divided (8 * part) register }
{
    let mut left = ABOVE_LEAVES;
    let mut r = 0;
    for k in (0..32u32).rev() {
        left = shift(left);
        r = r ^ (register >> k) % 2 * left;
    }
    r
}

// One bit.
fn shift(r: u32) -> u32
    ensures { result ≡ shifted r }
{
    r / 2 ^ r % 2 * DIVISOR
}

// The register after as many fours as there are: the bytes that are left take it to where the slice ends.
fn by_fours(register: u32, s: &[u8], t: Stored<'_>) -> u32
    ensures { running_of result (drop (length s.now / 4 * 4) s.now) ≡ running_of register s.now }
{
    let mut r = register;
    for k in 0..s.len() / 4 {
        r = turn(r ^ word(s, 4 * k), t);
    }
    r
}

// Four bytes, which stand in the register already, shifted out.
fn turn(x: u32, t: Stored<'_>) -> u32
    ensures { result ≡ divided 32 x }
{
    // A place that takes longer to find is looked up later, so that the joins do not wait for it.
    let first = t.three[(x % 256) as usize];
    let fourth = t.none[(x / 0x100_0000) as usize];
    let third = t.one[(x / 0x1_0000 % 256) as usize];
    let second = t.two[(x / 0x100 % 256) as usize];
    first ^ fourth ^ third ^ second
}

// Four bytes as a number, the first one lowest.
fn word(s: &[u8], i: usize) -> u32
    requires { i + 4 ≤ length s.now }
    ensures { let at : ℕ → ℕ = λ k. get_or s.now k 0 in
        result ≡ at i + at (i + 1) * 0x100 + at (i + 2) * 0x1_0000 + at (i + 3) * 0x100_0000 }
{
    u32::from_le_bytes([s[i], s[i + 1], s[i + 2], s[i + 3]])
}

// The register after each byte of a slice, one by one.
fn by_bytes(register: u32, s: &[u8], remainders: &[u32; 256]) -> u32
    requires { Remainders remainders.now }
    ensures { result ≡ running_of register s.now }
{
    let mut r = register;
    for b in s {
        let k = (r ^ *b as u32) % 256;
        r = r / 256 ^ remainders[k as usize];
    }
    r
}

// The check of a whole slice.
pub fn whole(s: &[u8]) -> u32
    ensures { result ≡ check_of s.now }
{
    running(ONES, s) ^ ONES
}

// The check of a block: of the bytes that it covers, or of those that are there.
pub fn of_block(block: &[u8]) -> u32
    ensures { result ≡ block_check_of block.now }
{
    whole(slices::part(block, 0, COVERED))
}
