// Final selection.
ghost use Rattle.std.specs.Prelude.{◌≡◌, ◌||◌, [], ltb, length};
ghost use Rattle.start_list.specs.Listing.{applications_in};
ghost use Rattle.select_list.specs.Kept.{list_in, candidate_at};
ghost use Rattle.select_search.specs.Final.{attended as attended_of, unattended as unattended_of, final_selection};
ghost use Rattle.select_search.specs.Final.{less_one, selected, after_final};
ghost use Rattle.select_search.specs.Turns.{search_of, turn_of, turned, kept};

use crate::going::{go, offer};
use crate::status::has_status;
use crate::{Hearing, Stand, Step, Turn};
use answer_select::pdol;
use dol_wanted::is_fillable;
use numbers::{FOR_LIST, FOR_NOBODY};
use select_answers::files::{application_name, is_application};
use select_list::joining::remove;
use select_list::reading::{SIZE, confirms_at, count, name_at};
use slices::alike;
use start_list::listing::can_choose;

// Whether the shopper's choice is due.
fn asks_shopper(stand: Stand, list: &[u8]) -> bool
    ensures { result
        ≡ (ltb 1 (length (list_in list.now)) || ((candidate_at (list_in list.now) 0).confirm || stand.fallen)) }
{
    1 < count(list) || confirms_at(list, 0) || stand.fallen
}

fn attended(stand: Stand, list: &[u8]) -> Turn
    ensures { result ≡ turn_of (attended_of (search_of stand (list_in list.now))) }
{
    if asks_shopper(stand, list) {
        return offer(stand);
    }
    go(
        stand,
        Step::Final {
            place: 0,
            taken: false,
        },
    )
}

fn unattended(stand: Stand, list: &[u8]) -> Turn
    ensures { result ≡ turn_of (unattended_of (search_of stand (list_in list.now))) }
{
    if confirms_at(list, 0) {
        return Turn::Over(FOR_NOBODY);
    }
    go(
        stand,
        Step::Final {
            place: 0,
            taken: false,
        },
    )
}

#[tactic(auto, unfolding(crate::specs::Turns::turn_of, crate::specs::Final::final_selection, slices::specs::Choice::pick))]
pub fn final_turn(stand: Stand, start: &[u8], list: &[u8]) -> Turn
    ensures { result ≡ turn_of (final_selection (applications_in start.now) (search_of stand (list_in list.now))) }
{
    if count(list) == 0 {
        return Turn::Over(FOR_NOBODY);
    }
    if can_choose(start) {
        return attended(stand, list);
    }
    unattended(stand, list)
}

// Whether the application at a place is selected by an answer.
#[tactic(auto, unfolding(crate::specs::Final::selected, slices::specs::Tests::every, slices::specs::Choice::pick))]
fn is_selected(answer: &[u8], list: &[u8], place: usize) -> bool
    ensures { result ≡ selected (list_in list.now) place answer.now }
{
    has_status(answer, 0x9000)
        && is_application(answer)
        && alike(name_at(list, place), application_name(answer))
}

// An application has fallen out, and whether the shopper took it is kept.
#[tactic(auto, unfolding(crate::specs::Final::less_one))]
fn less_one(stand: Stand, taken: bool) -> Stand
    ensures { result ≡ (less_one 0 taken (search_of stand [])).stand }
{
    Stand {
        fallen: stand.fallen || taken,
        ..stand
    }
}

pub fn after_final(h: Hearing<'_>, place: u8, taken: bool, list: &mut [u8; SIZE]) -> Turn
    ensures { turned result (list_in list.new) h.entry.answer.now
        ≡ kept (after_final (applications_in h.entry.start.now) (search_of h.entry.stand (list_in list.old)) place taken
        h.entry.answer.now) }
{
    let at = place as usize;
    if is_selected(h.answer, list, at) {
        if is_fillable(pdol(h.answer)) {
            return Turn::Runs;
        }
        return Turn::Over(FOR_LIST);
    }
    remove(list, at);
    final_turn(less_one(h.stand, taken), h.start, list)
}
