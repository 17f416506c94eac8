// What a turn asks to be done.
ghost use Rattle.std.specs.Prelude.{◌≡◌, ◌≤◌, Ok, length};
ghost use Rattle.slices.specs.Writing.{laid};
ghost use Rattle.t0_begin.specs.Begin.{wait_for};
ghost use Rattle.t0.specs.Steps.{sent_by, kept_by, reply_to};

use apdu::{ANSWER_MOST, DATA_MOST};
use slices::{lay, part};
use t0_begin::{Reply, Wait, header_bytes};
use t0_state::{Act, State};

// Lays what is to be sent at the start of a buffer, and what belongs to the answer behind what has come of it before.
#[tactic(auto, using(crate::proofs::Laying::nothing_or_header), unfolding(crate::proofs::Opened::doing))]
pub fn done(
    act: Act,
    s: &State,
    received: usize,
    out: &mut [u8; DATA_MOST],
    answer: &mut [u8; ANSWER_MOST],
) -> Reply
    requires { received ≤ 4352 }
    ensures reply { Ok result ≡ reply_to (Ok act) (length (sent_by (Ok act) s.now)) received s.now.phase }
    ensures sent { out.new ≡ laid (sent_by (Ok act) s.now) 0 out.old }
    ensures kept { answer.new ≡ laid (kept_by (Ok act)) received answer.old }
{
    match act {
        Act::Nothing => going(0, s),
        Act::Header(p3) => {
            lay(out, 0, &header_bytes(s, p3));
            going(5, s)
        }
        Act::Send(from, n) => {
            let bytes = part(&s.command.body, from, n);
            lay(out, 0, bytes);
            going(bytes.len(), s)
        }
        Act::Keep(b) => {
            lay(answer, received, &[b]);
            going(0, s)
        }
        Act::Answer(status) => {
            lay(answer, received, &[status.sw1, status.sw2]);
            Reply::Answer(received + 2)
        }
    }
}

// So many bytes are to be sent, and then what the phase says is waited for.
fn going(send: usize, s: &State) -> Reply
    ensures { result ≡ Reply.Go send (wait_for s.now.phase) }
{
    Reply::Go {
        send,
        wait: Wait::from(s.phase),
    }
}
