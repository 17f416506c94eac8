// The register of a block's check: eight bytes in a turn, and many zeros at once.
ghost use Rattle.std.specs.Prelude.{◌≡◌, ℕ, ◌+◌, ◌*◌, ◌%◌, ◌≤◌, ◌<◌, length, get_or};
ghost use Rattle.tape_crc.specs.Check.{divided, running_of, ones};
ghost use Rattle.quick_check.specs.Tables.{Rows, Behind, step};

// Where the register starts.
const ONES: u32 = 0xFFFF_FFFF;

// The stored numbers, lent: eight rows of what each byte leaves, and sixteen of what each bit leaves behind zeros.
#[derive(Clone, Copy)]
pub struct Stored<'a> {
    pub rows: &'a [u32; 2048],
    pub behind: &'a [u32; 512],
    ghost leaving: { Rows rows.now },
    ghost passing: { Behind behind.now },
}

// The register after a part of a block, from its beginning on: four bytes, and then as many eights as there are.
pub fn after(s: &[u8], stored: Stored<'_>) -> u32
    requires { length s.now % 8 ≡ 4 }
    ensures { result ≡ running_of ones s.now }
{
    let mut r = turn(ONES ^ word(s, 0), stored, 0);
    for k in 0..s.len() / 8 {
        let i = 4 + 8 * k;
        // What does not wait for the register comes first: the compiler joins in this order.
        r = turn(word(s, i + 4), stored, 0) ^ turn(r ^ word(s, i), stored, 4);
    }
    r
}

// Four bytes, which stand in the register already, shifted out, and behind them so many bytes of zeros.
fn turn(x: u32, stored: Stored<'_>, behind: usize) -> u32
    requires { behind ≤ 4 }
    ensures { result ≡ divided (32 + 8 * behind) x }
{
    let rows = stored.rows;
    let at = 256 * behind;
    let first = rows[at + 768 + (x % 256) as usize];
    let fourth = rows[at + (x / 0x100_0000) as usize];
    let third = rows[at + 256 + (x / 0x1_0000 % 256) as usize];
    let second = rows[at + 512 + (x / 0x100 % 256) as usize];
    first ^ fourth ^ third ^ second
}

// The register behind so many times 32 zeros: what its bits leave there, joined from the highest down.
pub fn past(register: u32, times: usize, stored: Stored<'_>) -> u32
    requires { times < 16 }
    ensures { result ≡ divided (8 * (step * times)) register }
{
    let mut r = 0;
    for k in (0..32u32).rev() {
        r = r ^ (register >> k) % 2 * stored.behind[32 * times + k as usize];
    }
    r
}

// Four bytes as a number, the first one lowest. The check of `tape_crc` has the same for its own use: one that it handed out would require
// that four bytes are there, and what a crate hands out requires nothing.
fn word(s: &[u8], i: usize) -> u32
    requires { i + 4 ≤ length s.now }
    ensures { let at : ℕ → ℕ = λ k. get_or s.now k 0 in
        result ≡ at i + at (i + 1) * 0x100 + at (i + 2) * 0x1_0000 + at (i + 3) * 0x100_0000 }
{
    u32::from_le_bytes([s[i], s[i + 1], s[i + 2], s[i + 3]])
}
