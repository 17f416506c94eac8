// GET PROCESSING OPTIONS, once an application is selected.
ghost use Rattle.std.specs.Prelude.{◌≡◌};
ghost use Rattle.rulebook.specs.Phase.{asks, optioning};
ghost use Rattle.session_state.specs.Reading.{early};
ghost use Rattle.session_moves.specs.Moves.{played, moved};

use crate::Step;
use crate::command::missing;
use crate::ends::ask;
use crate::known::at_options;
use commands::write;
use dol_fill::Sources;
use session_phase::Question;
use session_state::State;
use slices::part;

// Filled from the list 9F38 of the application.
pub fn options_due(s: State, list: &[u8], buf: &mut [u8]) -> Step
    ensures { played result buf.new ≡ moved (asks (optioning (early s) list.now)) s buf.old }
{
    let start = s.start;
    let size = s.size;
    let known = at_options(s);
    let from = Sources {
        start: part(&start, 0, size),
        known: &known,
    };
    let n = write::options(list, from, buf);
    let zeros = missing(s, list, &known);
    ask(s, Question::Options, n, zeros)
}
