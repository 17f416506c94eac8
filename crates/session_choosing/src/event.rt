// One event, one step on.
ghost use Rattle.std.specs.Prelude.{◌≡◌, true, []};
ghost use Rattle.start_choosing.specs.Start.{is_listing};
ghost use Rattle.select_list.specs.Kept.{list_in};
ghost use Rattle.rulebook_choosing.specs.Choosing.{searched, chose};
ghost use Rattle.session_choosing.specs.Moves.{played_later, moved_later};
ghost use Rattle.session_choosing.specs.Events.{choosing_in, begins, start_later, word_later, step_later};

use crate::search::{ask_next, by_turn};
use select_list::reading::SIZE;
use select_search::turns;
use session_events::event;
use session_moves::Step;
use session_phase::{Speaker, Waiting};
use session_state::State;
use session_state::change::begun_listing;
use slices::byte;
use start_choosing::LISTING;

// An answer to a command of the selection.
fn on_search(s: State, list: &mut [u8; SIZE], a: &[u8], buf: &mut [u8]) -> Step
    ensures { played_later result (list_in list.new) buf.new
        ≡ moved_later (searched (choosing_in s (list_in list.old)) a.now) s [] buf.old }
{
    let turn = turns::heard(s.stand, &s.listing, a, list);
    by_turn(s, turn, a, list, buf)
}

// The shopper's choice.
fn on_choice(s: State, list: &[u8], p: &[u8], buf: &mut [u8]) -> Step
    ensures { played_later result (list_in list.now) buf.new
        ≡ moved_later (chose (choosing_in s (list_in list.now)) p.now) s (list_in list.now)
        buf.old }
{
    let turn = turns::chosen(s.stand, byte(p, 0) as u8);
    by_turn(s, turn, p, list, buf)
}

// START with a list.
fn on_listing(p: &[u8], list: &mut [u8; SIZE], buf: &mut [u8]) -> Step
    requires { is_listing p.now ≡ true }
    ensures { played_later result (list_in list.new) buf.new ≡ begins p.now buf.old }
{
    let stand = turns::begin(list);
    ask_next(begun_listing(p), stand, list, buf)
}

fn on_start(s: State, list: &mut [u8; SIZE], p: &[u8], buf: &mut [u8]) -> Step
    ensures { played_later result (list_in list.new) buf.new
        ≡ start_later s (list_in list.old) p.now buf.old }
{
    if p.len() == LISTING {
        return on_listing(p, list, buf);
    }
    event::step(s, p, buf)
}

#[tactic(auto, using(crate::proofs::Turning::with_list_lem), unfolding(crate::specs::Events::word_later))]
fn by_speaker(s: State, speaker: Speaker, list: &mut [u8; SIZE], p: &[u8], buf: &mut [u8]) -> Step
    ensures { played_later result (list_in list.new) buf.new
        ≡ word_later speaker s (list_in list.old) p.now buf.old }
{
    match speaker {
        Speaker::Terminal => on_start(s, list, p, buf),
        Speaker::Says(_, _) => event::step(s, p, buf),
        Speaker::Shopper(_) => on_choice(s, list, p, buf),
    }
}

// What is waited for; where the session is over, nothing changes.
#[tactic(auto, using(crate::proofs::Turning::with_list_lem), unfolding(crate::specs::Events::step_later, crate::specs::Events::later_at))]
pub fn step(s: State, list: &mut [u8; SIZE], p: &[u8], buf: &mut [u8]) -> Step
    ensures { played_later result (list_in list.new) buf.new
        ≡ step_later s (list_in list.old) p.now buf.old }
{
    match s.waiting {
        Waiting::Searching => on_search(s, list, p, buf),
        Waiting::ForWord(speaker) => by_speaker(s, speaker, list, p, buf),
        Waiting::ForCard(_) | Waiting::Decided(_, _) | Waiting::Closed => event::step(s, p, buf),
    }
}
