// A block written into a lent buffer.
ghost use Rattle.std.specs.Prelude.{◌≡◌, length};
ghost use Rattle.slices.specs.Writing.{laid};
ghost use Rattle.t1_block.specs.Blocks.{written};

use crate::faults::lrc;
use slices::{lay, part};

// The longest block, with 254 bytes of information.
pub const LONGEST: usize = 258;

// Answers how many bytes the block has; a field that is too long is not written, and nothing changes.
#[tactic(auto, using(crate::proofs::Framing::laid_nothing), unfolding(crate::specs::Blocks::written, slices::specs::Choice::pick))]
pub fn write(pcb: u8, inf: &[u8], out: &mut [u8; LONGEST]) -> usize
    ensures value { result ≡ length (written pcb inf.now) }
    ensures out_after { out.new ≡ laid (written pcb inf.now) 0 out.old }
{
    let n = inf.len();
    if 254 < n {
        return 0;
    }
    lay(out, 0, &[0x00, pcb, n as u8]);
    lay(out, 3, inf);
    let x = lrc(part(out, 0, 3 + n));
    lay(out, 3 + n, &[x]);
    4 + n
}
