// T=0: an exchange begins with a command, whose header goes out first.
#![tactic(auto)]

mod waits;

ghost use Rattle.std.specs.Prelude.{◌≡◌, Err};
ghost use Rattle.t0_begin.specs.Begin.{header_of, command_of, state_at, nowhere, replied, begun_by};

use apdu::{Case, DATA_MOST, asked, case_of, data_of, is_status};
use slices::{byte, lay};
use t0_state::{Command, Counts, Header, Phase, Refusal, Sent, State};
pub use waits::Wait;

// So many bytes, at the start of the lent buffer, are to be sent, and then something is waited for; or the answer is complete and
// has so many bytes.
#[derive(Clone, Copy)]
pub enum Reply {
    Go { send: usize, wait: Wait },
    Answer(usize),
}

// The exchange afterwards, and what it says, or why it turns the command or the byte away.
#[derive(Clone, Copy)]
pub struct Step {
    pub state: State,
    pub reply: Result<Reply, Refusal>,
}

#[tactic(auto, unfolding(crate::proofs::Opened::beginning))]
pub fn begin(command: &[u8], out: &mut [u8; DATA_MOST]) -> Step
    ensures { replied result out.new ≡ begun_by command.now out.old }
{
    let Some(case) = case_of(command) else {
        return refused(Refusal::Command);
    };
    if is_status(byte(command, 1) as u8) {
        return refused(Refusal::Ins);
    }
    let p3 = byte(command, 4) as u8;
    let size = match case {
        Case::One => 0,
        Case::Two => asked(p3),
        Case::Three | Case::Four => p3 as usize,
    };
    let state = state_at(kept(command), Sent::Own(case), size, Phase::Procedure);
    lay(out, 0, &header_bytes(&state, p3));
    Step {
        state,
        reply: Ok(Reply::Go {
            send: 5,
            wait: Wait::Procedure,
        }),
    }
}

#[tactic(auto, unfolding(slices::specs::Writing::zeros, crate::specs::Begin::nowhere))]
fn refused(why: Refusal) -> Step
    ensures { (result.state ≡ nowhere) × (result.reply ≡ Err why) }
{
    let command = Command {
        cla: 0,
        ins: 0,
        p1: 0,
        p2: 0,
        body: [0; DATA_MOST],
    };
    Step {
        state: state_at(command, Sent::Own(Case::One), 0, Phase::Over),
        reply: Err(why),
    }
}

fn state_at(command: Command, sent: Sent, size: usize, phase: Phase) -> State
    ensures { result ≡ state_at command sent size phase }
{
    State {
        command,
        header: Header {
            sent,
            size,
            left: size,
        },
        counts: Counts {
            waits: 0,
            gets: 0,
            repeated: false,
        },
        trailer: None,
        phase,
        received: 0,
    }
}

#[tactic(auto, unfolding(slices::specs::Writing::zeros, crate::specs::Begin::command_of))]
fn kept(command: &[u8]) -> Command
    ensures { result ≡ command_of command.now }
{
    let mut body = [0u8; DATA_MOST];
    lay(&mut body, 0, data_of(command));
    Command {
        cla: byte(command, 0) as u8,
        ins: byte(command, 1) as u8,
        p1: byte(command, 2) as u8,
        p2: byte(command, 3) as u8,
        body,
    }
}

// The header with a length.
#[tactic(auto, unfolding(crate::specs::Begin::header_for, crate::specs::Begin::header_of))]
pub fn header_bytes(s: &State, p3: u8) -> [u8; 5]
    ensures { result ≡ header_of s.now p3 }
{
    let c = s.command;
    match s.header.sent {
        Sent::Own(_) => [c.cla, c.ins, c.p1, c.p2, p3],
        Sent::GetResponse => [0x00, 0xC0, 0x00, 0x00, p3],
    }
}
