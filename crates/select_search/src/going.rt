// Another exchange, or a choice before it.
ghost use Rattle.std.specs.Prelude.{◌≡◌, []};
ghost use Rattle.select_search.specs.Search.{goes, offers};
ghost use Rattle.select_search.specs.Turns.{search_of, turn_of};

use crate::{Stand, Step, Turn};
use numbers::FOR_EXCHANGES;

// The most exchanges of a selection.
const MOST: u8 = 100;

// The list has no part in it.
pub fn go(stand: Stand, step: Step) -> Turn
    ensures { result ≡ turn_of (goes (search_of stand []) step) }
{
    if stand.exchanges < MOST {
        return Turn::Asks(Stand {
            exchanges: stand.exchanges + 1,
            step,
            ..stand
        });
    }
    Turn::Over(FOR_EXCHANGES)
}

pub fn offer(stand: Stand) -> Turn
    ensures { result ≡ turn_of (offers (search_of stand [])) }
{
    if stand.exchanges < MOST {
        return Turn::Shows(stand);
    }
    Turn::Over(FOR_EXCHANGES)
}
