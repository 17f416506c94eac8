// A kernel session recorded onto a tape: each accepted call's event, and after it the command or the decision that it led to.
#![tactic(auto)]

ghost use Rattle.std.specs.Prelude.{◌≡◌, [], ◌∷◌};
ghost use Rattle.tape_read.specs.Entries.{entry};
ghost use Rattle.session_state.specs.Results.{decision_in};
ghost use Rattle.kernel_record.specs.Recording.{kept, kept_all, recorded, wrong, has_room, blocks_of_call, tape_refusal};

use kernel::Session;
use numbers::{COMMAND, DECISION, REFUSED_ENTRY, REFUSED_ROOM};
use session_phase::Reply;
use session_state::result::decision;
use slices::part;
use tape_read::{BLOCK, BLOCKS, PAYLOAD, no_kind};
use tape_write::{Appended, Writer};

// The most blocks that one call can lead to: its event, and the command or the decision after it.
pub const BLOCKS_OF_CALL: usize = 2;

// What the call with this event, answered with this reply, adds to the tape: all its blocks, or none. The command stands at the
// start of its buffer, the decision in the session after the call. The answer is the writer afterwards, and 0 or the refusal.
pub fn record(
    writer: Writer,
    kind: u8,
    payload: &[u8],
    reply: Reply,
    command: &[u8],
    session: Session,
    tape: &mut [u8],
) -> Appended
    ensures { kept result tape.new
        ≡ kept_all writer (recorded (entry kind payload.now) reply command.now session) tape.old }
{
    match reply {
        Reply::Command(n) => both(writer, kind, payload, COMMAND, part(command, 0, n), tape),
        Reply::Decided => both(writer, kind, payload, DECISION, &decision_in(session), tape),
        Reply::Due(_) => writer.append(kind, payload, tape),
        Reply::Closed => writer.append(kind, payload, tape),
        Reply::Refused(_) => Appended { writer, refusal: 0 },
    }
}

fn decision_in(session: Session) -> [u8; 9]
    ensures { result ≡ decision_in session.state }
{
    let state = session.state;
    decision(state)
}

// Whether a tape has room for all that one call can lead to.
pub fn has_room(writer: Writer, tape: &[u8]) -> bool
    ensures { result ≡ has_room blocks_of_call writer.used tape.now }
{
    let used = writer.used;
    if BLOCKS - BLOCKS_OF_CALL < used {
        return false;
    }
    (used + BLOCKS_OF_CALL) * BLOCK <= tape.len()
}

// Two entries, or neither.
fn both(
    writer: Writer,
    kind: u8,
    payload: &[u8],
    next_kind: u8,
    next_payload: &[u8],
    tape: &mut [u8],
) -> Appended
    ensures { kept result tape.new
        ≡ kept_all writer (entry kind payload.now ∷ entry next_kind next_payload.now ∷ []) tape.old }
{
    let refusal = why_refused(writer, kind, payload, next_kind, next_payload, tape);
    if refusal != 0 {
        return Appended { writer, refusal };
    }
    let first = writer.append(kind, payload, tape);
    let next = first.writer;
    next.append(next_kind, next_payload, tape)
}

// 0, or the number of the first refusal that applies to two entries.
fn why_refused(
    writer: Writer,
    kind: u8,
    payload: &[u8],
    next_kind: u8,
    next_payload: &[u8],
    tape: &[u8],
) -> u8
    ensures { result
        ≡ tape_refusal writer.used (entry kind payload.now ∷ entry next_kind next_payload.now ∷ [])
        tape.now }
{
    if is_wrong(kind, payload) {
        return REFUSED_ENTRY;
    }
    if is_wrong(next_kind, next_payload) {
        return REFUSED_ENTRY;
    }
    if has_room(writer, tape) {
        0
    } else {
        REFUSED_ROOM
    }
}

// No kind, or a payload that is too long.
fn is_wrong(kind: u8, payload: &[u8]) -> bool
    ensures { result ≡ wrong (entry kind payload.now) }
{
    if no_kind(kind) {
        true
    } else {
        PAYLOAD < payload.len()
    }
}
