// A judgement under way, one piece of the tape further.
ghost use Rattle.std.specs.Prelude.{◌≡◌};
ghost use Rattle.verdict.specs.Saying.{says, finds};
ghost use Rattle.verdict.specs.declared.Verdict.{Verdict as Said};
ghost use Rattle.tape_feed.specs.Feeding.{pieces_of};
ghost use Rattle.judge.specs.Feeding.{begun, fed, fed_all, closed};

use crate::UnderWay;
use judge_follow::follow;
use judge_stages::{conclude, unreadable};
use tape_feed::{found, next};
use tape_read::{BLOCK, block_at, kind, payload};
use verdict::Finding;

pub fn begin() -> UnderWay
    ensures { result ≡ begun }
{
    UnderWay {
        reader: tape_feed::begin(),
        dialogue: follow::begin(),
    }
}

// A piece of 512 bytes is a block; any other is the tail, and nothing behind it is looked at.
pub fn feed(u: UnderWay, piece: &[u8]) -> UnderWay
    ensures { result ≡ fed u piece.now }
{
    let due = u.reader;
    let index = due.blocks;
    let taken = next(due, piece);
    let reader = taken.reader;
    let before = u.dialogue;
    let dialogue = follow::feed(before, taken.good, index, kind(piece), payload(piece));
    UnderWay { reader, dialogue }
}

// The whole tape, piece by piece.
#[tactic(auto, using(crate::proofs::Fed::rest_begun, crate::proofs::Fed::rest_turn, crate::proofs::Fed::rest_over))]
pub fn feed_all(tape: &[u8]) -> UnderWay
    ensures { result ≡ fed_all begun (pieces_of tape.now) }
{
    let mut u = begin();
    for k in 0..tape.len() / BLOCK + 1 {
        u = feed(u, block_at(tape, k));
    }
    u
}

// Of an unreadable tape nothing is counted.
fn damaged(place: usize, code: usize) -> Finding
    ensures { result ≡ finds (says Said.Unreadable place code) 0 }
{
    Finding {
        ruling: unreadable(place, code),
        zeros: 0,
    }
}

// The verdict, where the tape ends here.
pub fn close(u: UnderWay) -> Finding
    ensures { result ≡ closed u }
{
    let reader = u.reader;
    let why = found(reader);
    if why.code != 0 {
        return damaged(why.place, why.code);
    }
    let dialogue = u.dialogue;
    let stage = dialogue.stage;
    Finding {
        ruling: conclude(stage, reader.blocks),
        zeros: dialogue.zeros,
    }
}
