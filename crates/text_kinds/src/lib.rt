// The words for the kinds of entries, for programs that say what is due.
#![tactic(auto)]

ghost use Rattle.std.specs.Prelude.{◌≡◌, length, IfOk};
ghost use Rattle.slices.specs.Writing.{laid};
ghost use Rattle.text_kinds.specs.Kinds.{word_of, counts as is_counted};

use numbers::{ANSWER, COMMAND, DECISION, HOST, RESULTS, SILENCE, START};
use slices::{lay, part};
use std::io;

// No word is longer.
pub const LONGEST: usize = 8;

// The word at the start of a buffer, and its length; where it has no room nothing is written.
#[tactic(auto, unfolding(slices::specs::Tables::beside, slices::specs::Choice::pick))]
pub fn word(kind: u8, out: &mut [u8]) -> usize
    ensures size { result ≡ length (word_of kind) }
    ensures text { out.new ≡ laid (word_of kind) 0 out.old }
{
    match kind {
        START => spell(b"START", out),
        COMMAND => spell(b"COMMAND", out),
        ANSWER => spell(b"ANSWER", out),
        SILENCE => spell(b"SILENCE", out),
        HOST => spell(b"HOST", out),
        DECISION => spell(b"DECISION", out),
        RESULTS => spell(b"RESULTS", out),
        _ => spell(b"NOTHING", out),
    }
}

fn spell(text: &[u8], out: &mut [u8]) -> usize
    ensures size { result ≡ length text.now }
    ensures text { out.new ≡ laid text.now 0 out.old }
{
    lay(out, 0, text);
    text.len()
}

// Whether a number stands behind the word where it is due: how many are wanted.
pub fn counts(kind: u8) -> bool
    ensures { result ≡ is_counted kind }
{
    kind == RESULTS
}

// Prints the word, and how many are wanted where that is counted.
pub fn print_due(rt: &impl Print, kind: u8, wanted: usize) -> io::Result<()>
    ensures { IfOk result (λ r. r ≡ tt) }
{
    let mut name = [0u8; LONGEST];
    let n = word(kind, &mut name);
    rt.write_all(part(&name, 0, n))?;
    if counts(kind) {
        print!(rt; " {wanted}")?;
    }
    Ok(())
}
