// What a rule comes to.
ghost use Rattle.std.specs.Prelude.{◌≡◌};
ghost use Rattle.cvm_rules.specs.Turns.{tried_turn, turn_of};

use crate::conditions::satisfied;
use crate::methods::{goes_on, method_of, succeeds, tried_bits};
use crate::{Circumstances, Method, Turn};

pub const NOT_SUCCESSFUL: u8 = 0x80;

#[tactic(auto, unfolding(crate::specs::Turns::tried_turn, slices::specs::Choice::pick))]
fn tried_turn(m: Method, on: bool, means: u8, res: u8) -> Turn
    ensures { result ≡ tried_turn m on means res }
{
    let bits = tried_bits(m, means, res);
    if succeeds(m, means, res) {
        return Turn { bits, ends: true };
    }
    if on {
        return Turn { bits, ends: false };
    }
    Turn {
        bits: bits | NOT_SUCCESSFUL,
        ends: true,
    }
}

// Given the list's amounts X and Y, the rule's two bytes, and the byte that was handed in for it.
#[tactic(auto, unfolding(crate::specs::Turns::turn_of, crate::specs::Turns::tried, slices::specs::Choice::pick))]
pub fn turn_of(c: Circumstances, x: u64, y: u64, first: u8, code: u8, res: u8) -> Turn
    ensures { result ≡ turn_of c x y first code res }
{
    let m = method_of(first);
    if satisfied(c, x, y, m, code) {
        return tried_turn(m, goes_on(first), c.means, res);
    }
    Turn {
        bits: 0,
        ends: false,
    }
}
