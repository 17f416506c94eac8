// How a selection goes on.
ghost use Rattle.std.specs.Prelude.{◌≡◌};
ghost use Rattle.start_list.specs.Listing.{applications_in};
ghost use Rattle.select_list.specs.Kept.{list_in};
ghost use Rattle.select_search.specs.Turns.{search_of, turned};
ghost use Rattle.session_moves.specs.Moves.{played};
ghost use Rattle.session_choosing.specs.Moves.{asking, offering};
ghost use Rattle.session_choosing.specs.Turns.{found};

use answer_select::pdol;
use numbers::CHOICE;
use select_commands::ask;
use select_list::reading::shown;
use select_search::{Stand, Turn};
use session_moves::Step;
use session_moves::ends::{end, wait};
use session_moves::options::options_due;
use session_phase::{Reply, Speaker, Waiting};
use session_state::State;
use session_state::change::with_stand;

// Another exchange.
pub fn ask_next(s: State, stand: Stand, list: &[u8], buf: &mut [u8]) -> Step
    ensures { played result buf.new
        ≡ asking (applications_in s.listing) (search_of stand (list_in list.now)) s buf.old }
{
    let n = ask(stand.step, &s.listing, list, buf);
    wait(with_stand(s, stand), Waiting::Searching, Reply::Command(n))
}

// The shopper's choice, among those shown.
fn show(s: State, stand: Stand, list: &[u8], buf: &[u8]) -> Step
    ensures { played result buf.now ≡ offering (search_of stand (list_in list.now)) s buf.now }
{
    wait(
        with_stand(s, stand),
        Waiting::ForWord(Speaker::Shopper(shown(list))),
        Reply::Due(CHOICE),
    )
}

// By what was found; the list 9F38 stands in the answer.
pub fn by_turn(s: State, turn: Turn, answer: &[u8], list: &[u8], buf: &mut [u8]) -> Step
    ensures { played result buf.new
        ≡ found (turned turn (list_in list.now) answer.now) s buf.old }
{
    match turn {
        Turn::Asks(stand) => ask_next(s, stand, list, buf),
        Turn::Shows(stand) => show(s, stand, list, buf),
        Turn::Runs => options_due(s, pdol(answer), buf),
        Turn::Over(reason) => end(s, reason),
    }
}
