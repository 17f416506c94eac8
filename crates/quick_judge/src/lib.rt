// The quick judge: the verdict of a whole tape (02, R-14). What makes the tape unreadable first, block by block up to the first bad one;
// then its dialogue, in the order of a session. Its promise is the plain judge's, to the letter.
#![tactic(auto)]

ghost use Rattle.std.specs.Prelude.{◌≡◌};
ghost use Rattle.verdict.specs.Saying.{says, finds};
ghost use Rattle.verdict.specs.declared.Verdict.{Verdict as Said};
ghost use Rattle.verdict_judged.specs.Judged.{Judged};
ghost use Rattle.verdict_judged.specs.Zeroed.{Zeroed};

use quick_check::damage;
use quick_follow::follow;
use verdict::{Finding, Ruling, Verdict};

// Of an unreadable tape nothing is counted.
fn damaged(place: usize, code: usize) -> Finding
    ensures { result ≡ finds (says Said.Unreadable place code) 0 }
{
    Finding {
        ruling: Ruling {
            verdict: Verdict::Unreadable,
            place,
            code,
        },
        zeros: 0,
    }
}

// The verdict of any bytes, and the number of list entries filled with zeros.
pub fn judge(tape: &[u8]) -> Finding
    ensures verdict { Judged tape.now result.ruling }
    ensures zeros { Zeroed tape.now result.zeros }
{
    let why = damage(tape);
    if why.code != 0 {
        return damaged(why.place, why.code);
    }
    follow(tape)
}
