// A tape judged, and what is due next on it.
ghost use Rattle.std.specs.Prelude.{◌≡◌};
ghost use Rattle.tape_read.specs.Tapes.{read_tape};
ghost use Rattle.lab.specs.Findings.{FoundOf, laid_finding};
ghost use Rattle.lab.specs.Due.{in_numbers, due_on};

use book_answer::verdict_number;
use judge::{judge, pieces};
use judge_due::{DueNext, due};
use tape_feed::found;
use verdict::Finding;

// The kind of no entry: the tape is unreadable, and nothing can stand next.
const NO_TAPE: u64 = 254;

fn laid(f: Finding) -> [u64; 4]
    ensures { result ≡ laid_finding f }
{
    let ruling = f.ruling;
    let verdict = ruling.verdict;
    [
        verdict_number(verdict) as u64,
        ruling.place as u64,
        ruling.code as u64,
        f.zeros as u64,
    ]
}

// The verdict of a tape (1 PASS, 2 FAIL, 3 INCONCLUSIVE, 4 UNREADABLE), its place, its code, and the number of zeros.
pub fn lab_judge(tape: &[u8], finding: &mut [u64; 4])
    ensures { FoundOf tape.now finding.new }
{
    *finding = laid(judge(tape));
}

// The same numbers by the quick judge.
pub fn lab_judge_quick(tape: &[u8], finding: &mut [u64; 4])
    ensures { FoundOf tape.now finding.new }
{
    *finding = laid(quick_judge::judge(tape));
}

fn numbers(d: Option<DueNext>) -> [u64; 2]
    ensures { result ≡ in_numbers d }
{
    match d {
        Some(d) => [d.kind as u64, d.size as u64],
        None => [0, 0],
    }
}

// What is due after the entries of a tape: its kind, and the number of its bytes, which stand at the start of `out`, or of what is wanted.
// Kind 0: nothing is due; 255: its bytes do not fit; 254: the tape is unreadable, beside the code.
pub fn lab_due(tape: &[u8], next: &mut [u64; 2], out: &mut [u8])
    ensures next_after { next.new ≡ (due_on (read_tape tape.now) out.old).next }
    ensures out_after { out.new ≡ (due_on (read_tape tape.now) out.old).buffer }
{
    let u = pieces::feed_all(tape);
    let why = found(u.reader);
    if why.code != 0 {
        *next = [NO_TAPE, why.code as u64];
        return;
    }
    *next = numbers(due(u, out));
}
