// What a turn asks to be done.
ghost use Rattle.std.specs.Prelude.{◌≡◌, length};
ghost use Rattle.slices.specs.Writing.{laid};
ghost use Rattle.t1.specs.Steps.{block_for, block_of, sent_by, kept_by, reply_to, done_by};

use crate::{Reply, Step};
use apdu::ANSWER_MOST;
use slices::{lay, part};
use t1_block::{LONGEST, pcb_of_i, pcb_of_s, write};
use t1_state::{Act, Last, State, Turn};

// The block that is out, laid at the start of a buffer; answers how many bytes it has.
#[tactic(auto, using(t1_block::proofs::Framing::laid_nothing), unfolding(crate::specs::Steps::block_of, crate::specs::Steps::block_for))]
fn write_block(s: State, out: &mut [u8; LONGEST]) -> usize
    ensures value { result ≡ length (block_of s) }
    ensures out_after { out.new ≡ laid (block_of s) 0 out.old }
{
    match s.last {
        Last::Nothing => 0,
        Last::Information => write_information(s, out),
        Last::Ready(pcb) => write(pcb, b"", out),
        Last::Request(w, v) => write(pcb_of_s(false, w), &[v], out),
        Last::Response(w, v) => write(pcb_of_s(true, w), &[v], out),
    }
}

#[tactic(auto, unfolding(crate::specs::Steps::block_for))]
fn write_information(s: State, out: &mut [u8; LONGEST]) -> usize
    ensures value { result ≡ length (block_for Last.Information s) }
    ensures out_after { out.new ≡ laid (block_for Last.Information s) 0 out.old }
{
    let m = s.message;
    let pcb = pcb_of_i(!s.numbers.next, m.has_more());
    write(pcb, part(&m.bytes, m.at, m.size), out)
}

// Whatever the turn sends.
#[tactic(auto, using(t1_block::proofs::Framing::laid_nothing), unfolding(crate::specs::Steps::sent_by))]
fn send_by(act: Act, s: State, out: &mut [u8; LONGEST]) -> usize
    ensures value { result ≡ length (sent_by act s) }
    ensures out_after { out.new ≡ laid (sent_by act s) 0 out.old }
{
    match act {
        Act::Send | Act::Keep | Act::Value => write_block(s, out),
        Act::Nothing | Act::Whole(_) | Act::End(_) | Act::Refuse(_) => 0,
    }
}

// Lays the field behind what has come of its message before.
#[tactic(auto, using(t1_block::proofs::Framing::laid_nothing), unfolding(crate::specs::Steps::kept_by))]
pub fn keep(act: Act, received: usize, inf: &[u8], message: &mut [u8; ANSWER_MOST])
    ensures { message.new ≡ laid (kept_by act inf.now) received message.old }
{
    match act {
        Act::Keep | Act::Whole(_) => lay(message, received, inf),
        Act::Nothing | Act::Send | Act::Value | Act::End(_) | Act::Refuse(_) => {}
    }
}

pub fn reply_of(act: Act, sent: usize, inf: usize) -> Reply
    ensures { result ≡ reply_to act sent inf }
{
    match act {
        Act::Nothing => Reply::Nothing,
        Act::Send => Reply::Send(sent),
        Act::Keep | Act::Value => Reply::Took { send: sent, inf },
        Act::Whole(n) => Reply::Whole { message: n, inf },
        Act::End(e) => Reply::End(e),
        Act::Refuse(why) => Reply::Refused(why),
    }
}

#[tactic(auto, unfolding(crate::specs::Steps::done_by))]
pub fn finish(t: Turn, inf: usize, out: &mut [u8; LONGEST]) -> Step
    ensures value { result ≡ done_by t inf }
    ensures out_after { out.new ≡ laid (sent_by t.act t.state) 0 out.old }
{
    let sent = send_by(t.act, t.state, out);
    Step {
        state: t.state,
        reply: reply_of(t.act, sent, inf),
    }
}
