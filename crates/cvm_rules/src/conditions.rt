// Whether the condition of a rule is satisfied.
ghost use Rattle.std.specs.Prelude.{◌≡◌};
ghost use Rattle.cvm_rules.specs.Conditions.{is_cash, satisfied as satisfied_by};

use crate::methods::supported;
use crate::{Circumstances, Method};

pub fn is_cash(c: Circumstances) -> bool
    ensures { result ≡ is_cash c }
{
    c.kind == 1 || c.other != 0
}

// Given the list's amounts X and Y, the rule's method and its second byte.
#[tactic(auto, unfolding(crate::specs::Conditions::satisfied, slices::specs::Tables::beside, slices::specs::Choice::pick))]
pub fn satisfied(c: Circumstances, x: u64, y: u64, m: Method, code: u8) -> bool
    ensures { result ≡ satisfied_by c x y m code }
{
    match code {
        0x00 => true,
        0x01 => is_cash(c),
        0x02 => !is_cash(c),
        0x03 => supported(m, c.means),
        0x04 => !supported(m, c.means),
        0x05 => false,
        0x06 => c.home && c.amount < x,
        0x07 => c.home && x < c.amount,
        0x08 => c.home && c.amount < y,
        0x09 => c.home && y < c.amount,
        _ => false,
    }
}
