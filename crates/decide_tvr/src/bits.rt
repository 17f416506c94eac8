// Rows of bits, compared and joined.
ghost use Rattle.std.specs.Prelude.{◌≡◌, ◌≤◌};
ghost use Rattle.decide_tvr.specs.Bits.{joined, meet, flag as flag_of};

#[tactic(auto, unfolding(crate::specs::Bits::flag, slices::specs::Choice::pick))]
pub fn flag(test: bool, bit: u8) -> u8
    ensures { (result ≡ flag_of test bit) × (result ≤ bit) }
{
    if test { bit } else { 0 }
}

// Whether a bit is set in both.
pub fn in_both(a: &[u8], b: &[u8]) -> bool
    ensures { result ≡ meet a.now b.now }
{
    a.iter().zip(b).any(|(x, y)| *x & *y != 0)
}

// Two rows of bytes, bit by bit.
pub fn join<const N: usize>(a: [u8; N], b: [u8; N]) -> [u8; N]
    ensures { result ≡ joined a.entry b.entry }
{
    let mut all = a;
    for (i, bits) in b.iter().enumerate() {
        all[i] |= *bits;
    }
    all
}
