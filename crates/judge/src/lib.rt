// The judge: the verdict of a tape. It replays the dialogue entry by entry and compares; it reads on after a broken rule, since a
// later damaged block makes the whole tape unreadable.
#![tactic(auto)]

pub mod pieces;

ghost use Rattle.verdict_judged.specs.Judged.{Judged};
ghost use Rattle.verdict_judged.specs.Zeroed.{Zeroed};

use judge_follow::Judgement;
use tape_feed::Reader;
use verdict::Finding;

// A judgement under way: what is known of the blocks so far, and how far their entries were followed.
#[derive(Clone, Copy)]
pub struct UnderWay {
    pub reader: Reader,
    pub dialogue: Judgement,
}

// The verdict of any bytes, and the number of list entries filled with zeros.
pub fn judge(tape: &[u8]) -> Finding
    ensures verdict { Judged tape.now result.ruling }
    ensures zeros { Zeroed tape.now result.zeros }
{
    pieces::close(pieces::feed_all(tape))
}
