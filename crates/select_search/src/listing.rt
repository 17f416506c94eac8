// The list of AIDs.
ghost use Rattle.std.specs.Prelude.{◌≡◌, true, not, ◌&&◌, ◌||◌, eqb};
ghost use Rattle.slices.specs.Tests.{alike as alike_of};
ghost use Rattle.start_list.specs.Listing.{applications_in, listed_at};
ghost use Rattle.select_names.specs.Names.{begins_with};
ghost use Rattle.select_answers.specs.Files.{is_application, application_name};
ghost use Rattle.select_list.specs.Kept.{list_in};
ghost use Rattle.select_search.specs.Search.{has_status};
ghost use Rattle.select_search.specs.Listing.{next_aid, compared as compared_of, after_listed};
ghost use Rattle.select_search.specs.Entries.{found_joined};
ghost use Rattle.select_search.specs.Turns.{search_of, turn_of, turned, kept};

use crate::finals::final_turn;
use crate::going::go;
use crate::status::has_status;
use crate::{Hearing, Step, Turn};
use numbers::FOR_NOBODY;
use select_answers::files::{application_indicator, application_name, is_application};
use select_list::joining::join;
use select_list::reading::SIZE;
use select_names::begins_with;
use slices::alike;
use start_list::listing::{can_choose, is_partial, listed_aid, listed_count};

fn next_aid(h: Hearing<'_>, aid: u8, list: &[u8]) -> Turn
    ensures { result
        ≡ turn_of (next_aid (applications_in h.entry.start.now) (search_of h.entry.stand (list_in list.now)) aid) }
{
    let k = aid as usize + 1;
    if k < listed_count(h.start) {
        return go(
            h.stand,
            Step::Listed {
                aid: k as u8,
                again: false,
            },
        );
    }
    final_turn(h.stand, h.start, list)
}

// An application that an AID found joins, unless it is blocked.
fn join_found(h: Hearing<'_>, list: &mut [u8; SIZE])
    ensures { list_in list.new
        ≡ found_joined (applications_in h.entry.start.now) h.entry.answer.now (list_in list.old) }
{
    if has_status(h.answer, 0x9000) {
        join(
            list,
            application_name(h.answer),
            can_choose(h.start),
            application_indicator(h.answer),
        );
    }
}

// Whether the card's name is the AID.
fn is_identical(h: Hearing<'_>, aid: usize) -> bool
    ensures { result
        ≡ alike_of (listed_at (applications_in h.entry.start.now) aid).aid (application_name h.entry.answer.now) }
{
    alike(listed_aid(h.start, aid), application_name(h.answer))
}

// Whether it begins with an AID that is partial.
fn is_longer(h: Hearing<'_>, aid: usize) -> bool
    ensures { result
        ≡ (begins_with (listed_at (applications_in h.entry.start.now) aid).aid (application_name h.entry.answer.now)
        && (listed_at (applications_in h.entry.start.now) aid).partial) }
{
    begins_with(listed_aid(h.start, aid), application_name(h.answer)) && is_partial(h.start, aid)
}

fn compared(h: Hearing<'_>, aid: u8, list: &mut [u8; SIZE]) -> Turn
    requires { is_application h.answer.now ≡ true }
    ensures { turned result (list_in list.new) h.entry.answer.now
        ≡ kept (compared_of (applications_in h.entry.start.now) (search_of h.entry.stand (list_in list.old)) aid
        h.entry.answer.now) }
{
    let k = aid as usize;
    if is_identical(h, k) {
        join_found(h, list);
        return next_aid(h, aid, list);
    }
    if is_longer(h, k) {
        join_found(h, list);
        return go(h.stand, Step::Listed { aid, again: true });
    }
    next_aid(h, aid, list)
}

// Whether the card refuses the first command of all.
fn is_refused(aid: u8, again: bool, answer: &[u8]) -> bool
    ensures { result ≡ (eqb aid 0 && (not again && has_status 0x6A81 answer.now)) }
{
    aid == 0 && !again && has_status(answer, 0x6A81)
}

// Whether an application was found, blocked or not.
fn is_found(answer: &[u8]) -> bool
    ensures { result
        ≡ ((has_status 0x9000 answer.now || has_status 0x6283 answer.now) && is_application answer.now) }
{
    (has_status(answer, 0x9000) || has_status(answer, 0x6283)) && is_application(answer)
}

pub fn after_listed(h: Hearing<'_>, aid: u8, again: bool, list: &mut [u8; SIZE]) -> Turn
    ensures { turned result (list_in list.new) h.entry.answer.now
        ≡ kept (after_listed (applications_in h.entry.start.now) (search_of h.entry.stand (list_in list.old)) aid again
        h.entry.answer.now) }
{
    if is_refused(aid, again, h.answer) {
        return Turn::Over(FOR_NOBODY);
    }
    if is_found(h.answer) {
        return compared(h, aid, list);
    }
    next_aid(h, aid, list)
}
