// One entry, or a command and its answer, beside what is due.
ghost use Rattle.std.specs.Prelude.{◌≡◌, ◌+◌, ◌/◌, ◌≤◌, ◌∷◌, ◌++◌, length};
ghost use Rattle.tape_read.specs.Entries.{block_size};
ghost use Rattle.verdict.specs.Saying.{says, finds};
ghost use Rattle.verdict.specs.declared.Verdict.{Verdict as Said};
ghost use Rattle.quick_meet.specs.Meeting.{is_end, ends as ends_at, breaks as breaks_at, kind_at, payload_at};
ghost use Rattle.quick_meet.specs.Meeting.{word_met, closed_met, silence_met, answer_met, exchange_met, last_met, decision_met};

use numbers::{ANSWER, COMMAND, DECISION, SILENCE};
use slices::alike;
use tape_read::{BLOCK, block_at, kind, payload};
use verdict::{Finding, Ruling, Verdict};

fn said(verdict: Verdict, place: usize) -> Ruling
    ensures { result ≡ says verdict place 0 }
{
    Ruling {
        verdict,
        place,
        code: 0,
    }
}

#[tactic(auto, unfolding(crate::specs::Meeting::ends))]
fn ends(k: usize) -> Result<(), Ruling>
    ensures { result ≡ ends_at k }
{
    Err(said(Verdict::Inconclusive, k))
}

#[tactic(auto, unfolding(crate::specs::Meeting::breaks))]
fn breaks(k: usize) -> Result<(), Ruling>
    ensures { result ≡ breaks_at k }
{
    Err(said(Verdict::Fail, k))
}

// What is said where it does not go on.
pub fn stop(ruling: Ruling, zeros: usize) -> Finding
    ensures { result ≡ finds ruling zeros }
{
    Finding { ruling, zeros }
}

// The rules are broken at an entry.
pub fn fail(k: usize, zeros: usize) -> Finding
    ensures { result ≡ finds (says Said.Fail k 0) zeros }
{
    Finding {
        ruling: said(Verdict::Fail, k),
        zeros,
    }
}

#[tactic(auto, unfolding(crate::specs::Meeting::is_end))]
fn is_end(tape: &[u8], k: usize) -> bool
    ensures { result ≡ is_end tape.now k }
{
    tape.len() / BLOCK <= k
}

pub fn kind_at(tape: &[u8], k: usize) -> u8
    ensures { result ≡ kind_at k tape.now }
{
    kind(block_at(tape, k))
}

pub fn payload_at(tape: &[u8], k: usize) -> &[u8]
    ensures { result.now ≡ payload_at k tape.now }
{
    payload(block_at(tape, k))
}

#[tactic(auto, unfolding(slices::specs::Choice::pick, crate::specs::Meeting::word_met))]
pub fn word(tape: &[u8], k: usize, due: u8) -> Result<(), Ruling>
    ensures { result ≡ word_met due k tape.now }
{
    if is_end(tape, k) {
        return ends(k);
    }
    if kind_at(tape, k) == due {
        return Ok(());
    }
    breaks(k)
}

#[tactic(auto, unfolding(slices::specs::Choice::pick, crate::specs::Meeting::closed_met))]
fn closed(tape: &[u8], k: usize) -> Result<(), Ruling>
    ensures { result ≡ closed_met k tape.now }
{
    if is_end(tape, k) {
        return ends(k);
    }
    breaks(k)
}

#[tactic(auto, unfolding(slices::specs::Choice::pick, crate::specs::Meeting::silence_met))]
fn silence(tape: &[u8], k: usize) -> Result<(), Ruling>
    requires { k + 1 ≤ length tape.now / block_size }
    ensures { result ≡ silence_met k tape.now }
{
    if kind_at(tape, k) != SILENCE {
        return breaks(k);
    }
    if payload_at(tape, k).len() != 0 {
        return breaks(k);
    }
    closed(tape, k + 1)
}

#[tactic(auto, unfolding(slices::specs::Choice::pick, crate::specs::Meeting::answer_met, crate::specs::Meeting::is_end))]
fn answered(tape: &[u8], k: usize) -> Result<(), Ruling>
    ensures { result ≡ answer_met k tape.now }
{
    if tape.len() / BLOCK <= k {
        return ends(k);
    }
    if kind_at(tape, k) == ANSWER {
        return Ok(());
    }
    silence(tape, k)
}

// A command, and behind it the card's answer.
#[tactic(auto, unfolding(slices::specs::Choice::pick, crate::specs::Meeting::exchange_met, crate::specs::Meeting::is_end))]
pub fn exchange(tape: &[u8], k: usize, command: &[u8]) -> Result<(), Ruling>
    ensures { result ≡ exchange_met command.now k tape.now }
{
    if tape.len() / BLOCK <= k {
        return ends(k);
    }
    if kind_at(tape, k) != COMMAND {
        return breaks(k);
    }
    if alike(payload_at(tape, k), command) {
        return answered(tape, k + 1);
    }
    breaks(k)
}

#[tactic(auto, unfolding(slices::specs::Choice::pick, crate::specs::Meeting::last_met))]
fn last(tape: &[u8], k: usize, zeros: usize) -> Finding
    ensures { result ≡ last_met k zeros tape.now }
{
    if is_end(tape, k) {
        return Finding {
            ruling: said(Verdict::Pass, k),
            zeros,
        };
    }
    fail(k, zeros)
}

// DECISION, and nothing behind it.
pub fn decided(
    tape: &[u8],
    k: usize,
    outcome: u8,
    reason: u8,
    tvr: [u8; 5],
    tsi: [u8; 2],
    zeros: usize,
) -> Finding
    ensures { result ≡ decision_met (outcome ∷ reason ∷ (tvr ++ tsi)) k zeros tape.now }
{
    if let Err(ruling) = word(tape, k, DECISION) {
        return Finding { ruling, zeros };
    }
    let due = [
        outcome, reason, tvr[0], tvr[1], tvr[2], tvr[3], tvr[4], tsi[0], tsi[1],
    ];
    if alike(payload_at(tape, k), &due) {
        return last(tape, k + 1, zeros);
    }
    fail(k, zeros)
}
