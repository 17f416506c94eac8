// A session's calls: each consumes one event and gives the next session with the reply. The command is written at the start of the
// lent buffer; a decision, a word that is due, a silence and a call that is turned away touch no byte of it.
ghost use Rattle.std.specs.Prelude.{◌≡◌, []};
ghost use Rattle.numbers.specs.Tables.{start as start_kind, answer as answer_kind};
ghost use Rattle.tape_read.specs.Entries.{entry};
ghost use Rattle.numbers.specs.Tables.{silence as silence_kind, host as host_kind, results as results_kind};
ghost use Rattle.session_phase.specs.Waiting.{count_due};
ghost use Rattle.session_phase.specs.declared.Reply.TheVariants.{Refused, Closed as ClosedReply};
ghost use Rattle.dol_fill.specs.Filled.{summed};
ghost use Rattle.kernel.specs.Calls.{called, call, closed_state, fresh_session};

use crate::{Session, Step};
use dol_fill::count::sum;
use kernel_refusals::refusal;
use numbers::{ANSWER, HOST, RESULTS, SILENCE, START};
use session_events::event;
use session_moves::Step as Move;
use session_phase::{Reply, Waiting, count_due};
use session_state::{State, change};

fn accept(before: usize, m: Move) -> Step
    ensures { (result.session.state ≡ m.state) × (result.session.zeros ≡ summed before m.zeros) × (result.reply ≡ m.reply) }
{
    Step {
        session: Session {
            state: m.state,
            zeros: sum(before, m.zeros),
        },
        reply: m.reply,
    }
}

fn turn_away(s: Session, why: usize) -> Step
    ensures { (result.session ≡ s) × (result.reply ≡ Refused why) }
{
    Step {
        session: s,
        reply: Reply::Refused(why),
    }
}

// The card says nothing: the session is closed without a decision.
#[tactic(auto, unfolding(crate::specs::Calls::closed_state))]
fn close(state: State, zeros: usize) -> Step
    ensures { (result.session.state ≡ closed_state state) × (result.session.zeros ≡ zeros) × (result.reply ≡ ClosedReply) }
{
    Step {
        session: Session {
            state: change::change(state, Waiting::Closed, state.tvr, state.tsi, state.cursor),
            zeros,
        },
        reply: Reply::Closed,
    }
}

impl Session {
    #[tactic(auto, unfolding(crate::specs::Calls::fresh_session))]
    pub fn fresh() -> Self
        ensures { result ≡ fresh_session }
    {
        Session {
            state: change::fresh(),
            zeros: 0,
        }
    }

    // An event of any kind, as the entry that it is on a tape.
    pub fn event(self, kind: u8, payload: &[u8], command: &mut [u8]) -> Step
        ensures { called result command.new ≡ call self (entry kind payload.now) command.old }
    {
        let why = refusal(self.state.waiting, kind, payload, command);
        if why != 0 {
            return turn_away(self, why);
        }
        if kind == SILENCE {
            return close(self.state, self.zeros);
        }
        accept(self.zeros, event::step(self.state, payload, command))
    }

    // How many entries of the lists filled so far are zeros for want of a value.
    pub fn filled_with_zeros(self) -> usize
        ensures { result ≡ self.zeros }
    {
        self.zeros
    }

    pub fn start(self, terminal: &[u8], command: &mut [u8]) -> Step
        ensures { called result command.new ≡ call self (entry start_kind terminal.now) command.old }
    {
        self.event(START, terminal, command)
    }

    pub fn answer(self, a: &[u8], command: &mut [u8]) -> Step
        ensures { called result command.new ≡ call self (entry answer_kind a.now) command.old }
    {
        self.event(ANSWER, a, command)
    }

    pub fn host(self, h: &[u8], command: &mut [u8]) -> Step
        ensures { called result command.new ≡ call self (entry host_kind h.now) command.old }
    {
        self.event(HOST, h, command)
    }

    // The results of cardholder verification.
    pub fn results(self, r: &[u8], command: &mut [u8]) -> Step
        ensures { called result command.new ≡ call self (entry results_kind r.now) command.old }
    {
        self.event(RESULTS, r, command)
    }

    // How many are wanted of what is counted in the word that is due, as the results are; 0 where nothing is.
    pub fn count_due(self) -> usize
        ensures { result ≡ count_due self.state.waiting }
    {
        count_due(self.state.waiting)
    }

    pub fn silence(self, command: &mut [u8]) -> Step
        ensures { called result command.new ≡ call self (entry silence_kind []) command.old }
    {
        self.event(SILENCE, b"", command)
    }
}
