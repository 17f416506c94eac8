// The functions of `lab` for programs in C, Rust and Python on x86-64: one export for each, which calls it and promises the same. What each
// does, and the numbers that cross the border, is said there. It keeps no state and asks nothing of its caller (no `requires`).
#![tactic(auto)]

ghost use Rattle.std.specs.Prelude.{◌≡◌};
ghost use Rattle.tape_read.specs.Tapes.{read_tape};
ghost use Rattle.tape_read.specs.Entries.{entry};
ghost use Rattle.tape_write.specs.Appending.{refusal_of, tape_after};
ghost use Rattle.recover.specs.Salvage.{next_from};
ghost use Rattle.atr.specs.Reading.{read_reset};
ghost use Rattle.book_block.specs.Entries.{made};
ghost use Rattle.book.specs.Entering.{reply_of, bytes_after};
ghost use Rattle.book_open.specs.Reopening.{read_book, opening_of};
ghost use Rattle.lab.specs.Findings.{FoundOf};
ghost use Rattle.lab.specs.Due.{due_on};
ghost use Rattle.lab.specs.Books.{fault_in, laid_end, reply_number, book_at};
ghost use Rattle.lab.specs.Tapes.{writer, is_block, laid_block};
ghost use Rattle.lab.specs.Resets.{is_accepted, laid_reset};

use lab::{books, due, resets, tapes};

#[unsafe(no_mangle)]
pub extern "C" fn lab_judge(tape: &[u8], finding: &mut [u64; 4])
    ensures { FoundOf tape.now finding.new }
{
    due::lab_judge(tape, finding);
}

#[unsafe(no_mangle)]
pub extern "C" fn lab_judge_quick(tape: &[u8], finding: &mut [u64; 4])
    ensures { FoundOf tape.now finding.new }
{
    due::lab_judge_quick(tape, finding);
}

#[unsafe(no_mangle)]
pub extern "C" fn lab_due(tape: &[u8], next: &mut [u64; 2], out: &mut [u8])
    ensures next_after { next.new ≡ (due_on (read_tape tape.now) out.old).next }
    ensures out_after { out.new ≡ (due_on (read_tape tape.now) out.old).buffer }
{
    due::lab_due(tape, next, out);
}

#[unsafe(no_mangle)]
pub extern "C" fn lab_append(
    used: usize,
    session: u32,
    kind: u8,
    payload: &[u8],
    tape: &mut [u8],
) -> u8
    ensures value { result ≡ refusal_of used (entry kind payload.now) tape.old }
    ensures tape_after { tape.new ≡ tape_after (writer used session) (entry kind payload.now) tape.old }
{
    tapes::lab_append(used, session, kind, payload, tape)
}

#[unsafe(no_mangle)]
pub extern "C" fn lab_recover(bytes: &[u8], step: usize, block: &mut [u64; 6]) -> bool
    ensures value { result ≡ is_block (next_from bytes.now step) }
    ensures block_after { block.new ≡ laid_block (next_from bytes.now step) block.old }
{
    tapes::lab_recover(bytes, step, block)
}

#[unsafe(no_mangle)]
pub extern "C" fn lab_atr(capture: &[u8], warm: bool, told: &mut [u64; 12]) -> bool
    ensures value { result ≡ is_accepted (read_reset capture.now warm) }
    ensures told_after { told.new ≡ laid_reset (read_reset capture.now warm) }
{
    resets::lab_atr(capture, warm, told)
}

#[unsafe(no_mangle)]
pub extern "C" fn lab_book_open(bytes: &[u8], end: &mut [u64; 5]) -> u8
    ensures value { result ≡ fault_in (opening_of (read_book bytes.now)) }
    ensures end_after { end.new ≡ laid_end (opening_of (read_book bytes.now)) }
{
    books::lab_book_open(bytes, end)
}

#[unsafe(no_mangle)]
pub extern "C" fn lab_book_enter(
    used: u32,
    tape: u32,
    verdict: u8,
    place: u32,
    code: u32,
    bytes: &mut [u8],
) -> u8
    ensures value { result ≡ reply_number (reply_of used (made tape verdict place code) bytes.old) }
    ensures bytes_after { bytes.new ≡ bytes_after (book_at used) (made tape verdict place code) bytes.old }
{
    books::lab_book_enter(used, tape, verdict, place, code, bytes)
}
