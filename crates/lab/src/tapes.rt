// Blocks of a tape: one more, and the good ones of any bytes.
ghost use Rattle.std.specs.Prelude.{◌≡◌};
ghost use Rattle.tape_read.specs.Entries.{entry};
ghost use Rattle.tape_write.specs.Appending.{refusal_of, tape_after};
ghost use Rattle.recover.specs.Salvage.{next_from};
ghost use Rattle.lab.specs.Tapes.{writer, is_block, laid_block};

use recover::next;
use tape_write::Writer;

// One entry more on a tape that has so many blocks used, under a session number: 0, or the number under which it is turned away.
pub fn lab_append(used: usize, session: u32, kind: u8, payload: &[u8], tape: &mut [u8]) -> u8
    ensures value { result ≡ refusal_of used (entry kind payload.now) tape.old }
    ensures tape_after { tape.new ≡ tape_after (writer used session) (entry kind payload.now) tape.old }
{
    let before = Writer { used, session };
    let appended = before.append(kind, payload, tape);
    appended.refusal
}

// The next good block of any bytes at or after a step: the step it stands at, its number, session number and kind, and where its payload
// starts and how long it is. False, and nothing changes, where there is none.
#[tactic(auto, unfolding(crate::specs::Tapes::is_block, crate::specs::Tapes::laid_block))]
pub fn lab_recover(bytes: &[u8], step: usize, block: &mut [u64; 6]) -> bool
    ensures value { result ≡ is_block (next_from bytes.now step) }
    ensures block_after { block.new ≡ laid_block (next_from bytes.now step) block.old }
{
    let Some(found) = next(bytes, step) else {
        return false;
    };
    *block = [
        found.step as u64,
        u64::from(found.number),
        u64::from(found.session),
        u64::from(found.kind),
        found.start as u64,
        found.size as u64,
    ];
    true
}
