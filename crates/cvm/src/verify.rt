// The rules of a verification list, one after the other.
ghost use Rattle.std.specs.Prelude.{◌≡◌};
ghost use Rattle.cvm.specs.Verified.{verified};

use crate::list::{limit, rules_in};
use cvm_rules::Circumstances;
use cvm_rules::turns::{NOT_SUCCESSFUL, turn_of};
use slices::{byte, part};

// What a list and the bytes handed in for its rules set in byte 3 of the TVR.
pub fn verify(list: &[u8], results: &[u8], c: Circumstances) -> u8
    ensures { result ≡ verified c list.now results.now }
{
    let x = limit(list);
    let y = limit(part(list, 4, 4));
    let mut bits = 0;
    for i in 0..rules_in(list) {
        let first = byte(list, 8 + 2 * i) as u8;
        let code = byte(list, 9 + 2 * i) as u8;
        let turn = turn_of(c, x, y, first, code, byte(results, i) as u8);
        bits |= turn.bits;
        if turn.ends {
            return bits;
        }
    }
    bits | NOT_SUCCESSFUL
}
