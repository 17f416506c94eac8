// Long values kept by value.
ghost use Rattle.std.specs.Prelude.{◌≡◌, ◌≤◌, length, take};
ghost use Rattle.session_records.specs.Runs.{longest, no_run, kept_run, in_run};

use crate::{LONGEST, Run};
use slices::lay;

pub fn nothing() -> Run
    ensures { result ≡ no_run }
{
    Run {
        bytes: [0; LONGEST],
        len: 0,
        there: false,
    }
}

// The bytes of a slice; none of them where there are more than can be kept.
pub fn keep(s: &[u8]) -> Run
    ensures { result ≡ kept_run s.now }
{
    let mut bytes = [0; LONGEST];
    lay(&mut bytes, 0, s);
    Run {
        bytes,
        len: s.len(),
        there: true,
    }
}

// Its bytes, of which the first `size_of` count.
pub fn bytes_of(run: Run) -> [u8; LONGEST]
    ensures { (result ≡ run.bytes) × (length run.bytes ≡ longest) }
{
    run.bytes
}

pub fn size_of(run: Run) -> usize
    ensures { (take result run.bytes ≡ in_run run) × (result ≤ longest) × (length run.bytes ≡ longest) × (result ≡ length (in_run run)) }
{
    let bytes = bytes_of(run);
    let len = run.len;
    if run.there {
        if len < bytes.len() { len } else { bytes.len() }
    } else {
        0
    }
}
