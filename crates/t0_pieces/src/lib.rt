// T=0: a piece of a capture, of any length.
#![tactic(auto)]

ghost use Rattle.std.specs.Prelude.{◌≡◌};
ghost use Rattle.t0_pieces.specs.Pieces.{is_closed, waiting_in, is_quiet, took, takes_from};

use apdu::{ANSWER_MOST, DATA_MOST};
use t0::step;
use t0_begin::{Reply, Wait};
use t0_state::{Phase, Refusal, State};

// The exchange afterwards, how many bytes of the piece it took, and what it then says.
#[derive(Clone, Copy)]
pub struct Taken {
    pub state: State,
    pub taken: usize,
    pub reply: Result<Reply, Refusal>,
}

// Takes bytes up to the first that brings something to send or ends the exchange. What is left of the piece is handed in again.
pub fn takes(
    s: State,
    piece: &[u8],
    out: &mut [u8; DATA_MOST],
    answer: &mut [u8; ANSWER_MOST],
) -> Taken
    ensures { took result out.new answer.new ≡ takes_from 0 s piece.now out.old answer.old }
{
    let mut state = s;
    for (i, b) in piece.iter().enumerate() {
        if is_closed(&state) {
            return stays(state, i);
        }
        let t = step(state, *b, out, answer);
        state = t.state;
        let reply = t.reply;
        if !is_quiet(reply) {
            return Taken {
                state,
                taken: i + 1,
                reply,
            };
        }
    }
    stays(state, piece.len())
}

fn stays(s: State, i: usize) -> Taken
    ensures { (result.state ≡ s) × (result.taken ≡ i) × (result.reply ≡ waiting_in s) }
{
    Taken {
        state: s,
        taken: i,
        reply: waiting(&s),
    }
}

// What the exchange says where no byte is there.
#[tactic(auto, unfolding(slices::specs::Choice::pick, crate::specs::Pieces::waiting_in))]
pub fn waiting(s: &State) -> Result<Reply, Refusal>
    ensures { result ≡ waiting_in s.now }
{
    if is_closed(s) {
        return Err(Refusal::Closed);
    }
    Ok(Reply::Go {
        send: 0,
        wait: Wait::from(s.phase),
    })
}

// Whether the exchange is over.
#[tactic(auto, unfolding(crate::specs::Pieces::is_over, crate::specs::Pieces::is_closed))]
pub fn is_closed(s: &State) -> bool
    ensures { result ≡ is_closed s.now }
{
    matches!(s.phase, Phase::Over)
}

// Whether nothing is to be sent and nothing has ended.
#[tactic(auto, unfolding(crate::specs::Pieces::is_quiet))]
fn is_quiet(reply: Result<Reply, Refusal>) -> bool
    ensures { result ≡ is_quiet reply }
{
    matches!(reply, Ok(Reply::Go { send: 0, .. }))
}
