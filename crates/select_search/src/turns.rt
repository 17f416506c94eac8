// One answer further, one choice further.
ghost use Rattle.std.specs.Prelude.{◌≡◌, []};
ghost use Rattle.start_list.specs.Listing.{applications_in};
ghost use Rattle.select_list.specs.Kept.{list_in};
ghost use Rattle.select_search.specs.Search.{begun};
ghost use Rattle.select_search.specs.Final.{chosen as chosen_of};
ghost use Rattle.select_search.specs.Heard.{heard_at, heard as heard_of};
ghost use Rattle.select_search.specs.Turns.{search_of, turn_of, list_left, turned, kept, goes_on};

use crate::directory::{after_environment, after_record};
use crate::finals::after_final;
use crate::going::go;
use crate::listing::after_listed;
use crate::status::is_size_bad;
use crate::{Hearing, Stand, Step, Turn};
use numbers::{FOR_NOBODY, FOR_SIZE};
use select_list::joining::clear;
use select_list::reading::SIZE;

// Where a selection begins.
#[tactic(auto, unfolding(crate::specs::Search::begun))]
pub fn first() -> Stand
    ensures { result ≡ begun.stand }
{
    Stand {
        exchanges: 1,
        step: Step::Environment,
        fallen: false,
    }
}

// There, with nobody in the list.
#[tactic(auto, unfolding(crate::specs::Search::begun))]
pub fn begin(list: &mut [u8; SIZE]) -> Stand
    ensures { (result ≡ begun.stand) × (list_in list.new ≡ begun.list) }
{
    clear(list);
    first()
}

// The shopper's choice; the list has no part in it.
#[tactic(auto, unfolding(crate::specs::Turns::turn_of, crate::specs::Final::chosen, slices::specs::Choice::pick))]
pub fn chosen(stand: Stand, place: u8) -> Turn
    ensures { result ≡ turn_of (chosen_of (search_of stand []) place) }
{
    if place == 0xFF {
        return Turn::Over(FOR_NOBODY);
    }
    go(stand, Step::Final { place, taken: true })
}

// By the command that was answered.
fn heard_at(h: Hearing<'_>, list: &mut [u8; SIZE]) -> Turn
    ensures { turned result (list_in list.new) h.entry.answer.now
        ≡ kept (heard_at (applications_in h.entry.start.now) (search_of h.entry.stand (list_in list.old)) h.entry.answer.now
        h.entry.stand.step) }
{
    match h.stand.step {
        Step::Environment => after_environment(h.stand, h.answer),
        Step::Directory { file, record } => after_record(h, file, record, list),
        Step::Listed { aid, again } => after_listed(h, aid, again, list),
        Step::Final { place, taken } => after_final(h, place, taken, list),
    }
}

#[tactic(auto, unfolding(crate::specs::Turns::goes_on))]
fn goes_on(turn: Turn) -> bool
    ensures { result ≡ goes_on turn }
{
    matches!(turn, Turn::Asks(_) | Turn::Shows(_))
}

// An answer of any bytes; nobody is left in the list once the selection is over.
pub fn heard(stand: Stand, start: &[u8], answer: &[u8], list: &mut [u8; SIZE]) -> Turn
    ensures value { result
        ≡ turn_of (heard_of (applications_in start.now) (search_of stand (list_in list.old)) answer.now) }
    ensures list_after { list_in list.new
        ≡ list_left (heard_of (applications_in start.now) (search_of stand (list_in list.old)) answer.now) }
    ensures answer_after { turned result (list_in list.new) answer.now
        ≡ kept (heard_of (applications_in start.now) (search_of stand (list_in list.old)) answer.now) }
{
    if is_size_bad(answer) {
        clear(list);
        return Turn::Over(FOR_SIZE);
    }
    let turn = heard_at(
        Hearing {
            start,
            answer,
            stand,
        },
        list,
    );
    if goes_on(turn) {
        return turn;
    }
    clear(list);
    turn
}
