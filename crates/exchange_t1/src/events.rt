// One event, with its reply printed.
use crate::asked::Event;
use crate::say;
use apdu::ANSWER_MOST;
use std::io;
use t1::{Reply, Step, ask, fresh, hello, receive, send, silent};
use t1_block::LONGEST;
use t1_state::{Role, State};

// An end of the line, with the room for the block that it sends and for the message that comes in.
#[derive(Drop)]
pub struct Exchange {
    end: State,
    pub out: [u8; LONGEST],
    message: [u8; ANSWER_MOST],
}

impl Exchange {
    pub fn begun() -> Exchange {
        Exchange {
            end: fresh(Role::Terminal, 254, 254),
            out: [0; LONGEST],
            message: [0; ANSWER_MOST],
        }
    }

    pub fn told(&mut self, rt: &impl Print, event: Event<'_>) -> io::Result<()> {
        let step = self.stepped(event);
        say::reply(rt, step.reply, &self.out, &self.message)?;
        self.end = step.state;
        say::state(rt, &self.end)
    }

    fn stepped(&mut self, event: Event<'_>) -> Step {
        let s = self.end;
        match event {
            Event::Begin { role, theirs, ours } => Step {
                state: fresh(role, theirs, ours),
                reply: Reply::Nothing,
            },
            Event::Block(block) => receive(s, block, &mut self.out, &mut self.message),
            Event::Send(m) => send(s, m, &mut self.out),
            Event::Hello => hello(s, &mut self.out),
            Event::Silence => silent(s),
            Event::Ask(what, value) => ask(s, what, value, &mut self.out),
        }
    }
}
