// T=0: a command goes to the card, and its bytes come back one by one or in pieces. The caller lends the room for what is to be
// sent and for the answer.
#![tactic(auto)]

mod doing;

ghost use Rattle.std.specs.Prelude.{◌≡◌};
ghost use Rattle.t0.specs.Steps.{stepped, step_of};

use apdu::{ANSWER_MOST, DATA_MOST};
use doing::done;
pub use t0_begin::{Reply, Step, Wait, begin};
pub use t0_state::State;
use t0_turns::after;

// One byte of the card's. The two buffers are lent apart: begin takes one of them, and a struct of both would be made anew for each call.
#[tactic(auto, using(crate::proofs::Laying::laid_nothing), unfolding(crate::proofs::Opened::stepping))]
pub fn step(s: State, b: u8, out: &mut [u8; DATA_MOST], answer: &mut [u8; ANSWER_MOST]) -> Step
    ensures { stepped result out.new answer.new ≡ step_of s b out.old answer.old }
{
    let turn = after(s, b);
    let state = turn.state;
    // a match: a closure for `map` would write both lent buffers, and its proof does not close
    let reply = match turn.act {
        Ok(act) => Ok(done(act, &state, s.received, out, answer)),
        Err(why) => Err(why),
    };
    Step { state, reply }
}
